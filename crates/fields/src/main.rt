// Reads records from standard input and prints their listing, or the one line of a refusal.
#![tactic(auto)]

use anyhow::anyhow;
use listing::listing::list_fields;
use std::io::Read;

fn main(rt: HostRuntime) -> anyhow::Result<()> {
    let mut input = Vec::new(rt.alloc());
    rt.stdin().read_to_end(&mut input)?;
    match list_fields(rt.alloc(), input.as_slice()) {
        Ok(text) => {
            print!(rt; "{text}")?;
            Ok(())
        }
        Err(error) => {
            println!(rt; "{error}")?;
            Err(anyhow!("refused"))
        }
    }
}
