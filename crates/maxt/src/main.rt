// The bounds of a timing sheet's routines, or its refusal: reads the sheet from standard input.
#![tactic(auto)]

fn main(rt: HostRuntime) {
    console::answer(&rt, &mut rt.stdin(), b"standard input");
}
