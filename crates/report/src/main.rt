// The report program: a sheet on standard input, the report on standard output.
#![tactic(auto)]

fn main(rt: HostRuntime) {
    // A sheet has at most 1,024 bytes: one more is enough to see that it is too long.
    let mut sheet = [0u8; 1025];
    let n = reading::fill(&mut rt.stdin(), &mut sheet);
    let mut table = [0u8; 60000];
    let mut work = [0u8; 60000];
    let mut text = [0u8; reporter::ROOM];
    if let Ok(length) = reporter::report(&sheet[..n], &mut table, &mut work, &mut text) {
        printing::put(&rt, &text[..length as usize]);
    }
}
