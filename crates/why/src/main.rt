// A trial file on standard input; on standard output a line a port, why its last entry is sent there or held back, or only the refusal number.
#![tactic(auto)]

fn main(rt: HostRuntime) {
    let file = streams::Input::read(&mut rt.stdin());
    let mut text = [0; 16];
    let end = reasons::last_entry(file.bytes(), &mut text);
    if rt.write_all(&text[0..end]).is_err() {
        let _ = eprintln!(rt; "why: the output is not whole");
    }
}
