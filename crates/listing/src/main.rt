// Reads a chart on standard input and writes its listing to standard output.
#![tactic(auto)]

fn main(rt: HostRuntime) {
    let mut room = [0u8; 24588];
    let mut text = [0u8; 36864];
    if let Err(e) = streams::list_input(&rt, &mut room, &mut text) {
        streams::complain(&rt, "listing", e);
    }
}
