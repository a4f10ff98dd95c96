// The listing program: a house file on standard input, its listing on standard output.
#![tactic(auto)]

fn main(rt: HostRuntime) {
    lister::list_from(&mut rt.stdin(), &mut rt.stdout());
}
