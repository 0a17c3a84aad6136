// Two measurements that no line meets, or three of which no two conflict, by their serials in rising order.
#[derive(Clone, Copy, PartialEq, Eq, Debug)]
pub struct Conflict {
    pub first: u32,
    pub second: u32,
    pub third: Option<u32>,
}
