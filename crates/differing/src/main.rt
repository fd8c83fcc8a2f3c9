// Stored answers of which some are wrong, each in another way, between others that hold: the file `stdin` says which, and `stdout` that each of them
// was seen, and no other.
#![tactic(auto)]

fn main(rt: HostRuntime) {
    records::compare_all(&rt, &mut rt.stdin());
}
