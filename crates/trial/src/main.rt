// A trial file on standard input, a line an entry on standard output; "bad file" for any other input.
#![tactic(auto)]

fn main(rt: HostRuntime) {
    let file = streams::Input::read(&mut rt.stdin());
    let mut text = [0; 65536];
    let end = replay::whole(file.bytes(), &mut text);
    if rt.write_all(&text[0..end]).is_err() {
        let _ = eprintln!(rt; "trial: the output is not whole");
    }
}
