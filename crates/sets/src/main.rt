// Tells the uncertainty set of each reading on standard input, one to a line, or why the chain of the bench does not take it.
#![tactic(auto)]

use bounded::bounded::Bounded;
use refusal::refusal::Refusal;
use stage::chain::Chain;
use stage::not_taken::NotTaken;
use stage::stage::Stage;
use standard::standard_chain;
use std::io;
use step::step::Step;

fn show(rt: &impl Print, chain: &Chain<Step, Bounded>, line: &str) -> io::Result<()> {
    let Ok(reading) = line.trim().parse::<i32>() else {
        return println!(rt; "{line}: not a reading");
    };
    match chain.ask(reading) {
        Ok((lower, upper)) => println!(rt; "{reading}: from {lower} to {upper}"),
        Err(refused) => {
            let NotTaken { place, value } = refused;
            let number = Refusal::from(refused).number();
            println!(rt; "{reading}: refused {number} at place {place}, which was handed {value}")
        }
    }
}

fn main(rt: HostRuntime) -> anyhow::Result<()> {
    let chain = standard_chain();
    for line in rt.lines(rt.alloc()) {
        show(&rt, &chain, line?.as_str())?;
    }
    Ok(())
}
