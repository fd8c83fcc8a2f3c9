// The papers' arrays: the orders of `orders/`, with the second implementation's answers in the file `stdin`. docs/CATALOGUE.md lists them.
#![tactic(auto)]

fn main(rt: HostRuntime) {
    records::compare_all(&rt, &mut rt.stdin());
}
