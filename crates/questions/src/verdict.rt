use refusal::conflict::Conflict;

// Whether one line meets all that is held, or which measurements conflict. An Option of a conflict would leave the good answer without its word.
#[derive(Clone, Copy)]
pub enum Verdict {
    Line,
    Conflict { conflict: Conflict },
}
