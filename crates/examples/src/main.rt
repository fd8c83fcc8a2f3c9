// The examples of document 01, every refusal, and both sides of each limit: the file `stdin` names each and has its answer. The starred examples are
// proved as well, in `sheets`.
#![tactic(auto)]

fn main(rt: HostRuntime) {
    records::compare_all(&rt, &mut rt.stdin());
}
