// The panel program: plays the log on standard input and writes the answer to standard output.
// Everything that matters is proved in the library `panel`.
#![tactic(auto)]

fn output_buffer() -> [u8; 2031648] {
    [0u8; 2031648]
}

fn play(rt: &HostRuntime, input: &[u8]) {
    let mut out = output_buffer();
    let n = panel::log::play(input, &mut out);
    console::write_answer(
        rt,
        &mut rt.stdout(),
        &out[..n],
        "panel: the answer could not be written",
    );
}

fn main(rt: HostRuntime) {
    let mut input = console::log_buffer();
    let read = console::read_log(&mut rt.stdin(), &mut input);
    if console::log_ended(&rt, &read, "panel: the log could not be read") {
        play(&rt, &input[..read.unwrap()]);
    }
}
