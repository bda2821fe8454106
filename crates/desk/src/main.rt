// The desk: lines at each kind, sealed and opened, from beginning to end.
#![tactic(auto)]

mod granted;
mod keys;
mod refused;
mod saying;
mod week;
mod weekly;

fn run(rt: &HostRuntime) -> anyhow::Result<()> {
    week::counts(rt)?;
    week::flags(rt)?;
    week::parcels(rt)?;
    weekly::weeks(rt)?;
    granted::panels(rt)?;
    refused::all(rt)
}

fn main(rt: HostRuntime) -> anyhow::Result<()> {
    run(&rt)
}
