// All numbers of a tag image on standard input.
#![tactic(auto)]

fn main(rt: HostRuntime) {
    print::print_input(&rt, true);
}
