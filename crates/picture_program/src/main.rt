// The picture program: plays the log on standard input and writes the picture that it leaves to standard output, as a plain
// PBM file. Everything that matters is proved in the libraries `panel` and `pbm`.
#![tactic(auto)]

// As long as the file of an EF9366 is.
fn file_buffer() -> [u8; 133131] {
    [0u8; 133131]
}

fn draw(rt: &HostRuntime, input: &[u8]) {
    let mut out = file_buffer();
    match panel::screen::write_screen(input, &mut out) {
        Ok(_) => {
            console::write_answer(
                rt,
                &mut rt.stdout(),
                &out,
                "picture: the file could not be written",
            );
        }
        Err(why) => console::say(rt, format_args!("picture: {why}")),
    }
}

fn main(rt: HostRuntime) {
    let mut input = console::log_buffer();
    let read = console::read_log(&mut rt.stdin(), &mut input);
    if console::log_ended(&rt, &read, "picture: the log could not be read") {
        draw(&rt, &input[..read.unwrap()]);
    }
}
