// Orders that the second implementation made from fixed seeds, most of them nearly right, with its answers in the file `stdin`.
#![tactic(auto)]

fn main(rt: HostRuntime) {
    records::compare_all(&rt, &mut rt.stdin());
}
