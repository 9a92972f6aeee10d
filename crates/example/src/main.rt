// A box in use: all that it sends goes to standard output.
#![tactic(auto)]

use frames::FrameOutcome;
use lines::judging::judge;
use lines::verdict::Order;
use settings::Settings;
use settings::model::Model;
use std::io;
use std::io::Write;
use std::rt::Stdout;
use tpg::State;
use tpg::answers::Outcome;

// A fresh 362 that is asked for its filters: ACK CR LF, then 2,2 CR LF, eight bytes from the front of out on.
fn filters(out: &mut [u8]) -> Outcome {
    State::fresh(362, 44990000).state.host(b"FIL\r\x05", out)
}

// Two lines, each answered ACK CR LF: the unit is Torr from here on, and a line of the stream is due at every tick.
fn streaming(state: State, out: &mut [u8]) -> Outcome {
    state.host(b"UNI,1\rCOM,0\r", out)
}

// A reading of channel 1, +1.0000E+03 hPa from a linear gauge, and then one tick.
fn read_and_tick(state: State, out: &mut [u8]) -> Outcome {
    state.reading(1, 5, 0, 10000, 3).state.tick(out)
}

// An input line of the bench, without its end: the output line stands at the front of out, which has room for the longest.
fn answered(state: State, out: &mut [u8]) -> FrameOutcome {
    frames::answer(state, b"0146494C0D05", out)
}

// The floors below can be called by themselves: the settings after a line without its CR.
fn after(model: Model, s: Settings, line: &[u8]) -> Settings {
    match judge(model, line) {
        Ok(Order::Writes(m, cells)) => s.store(model, m, cells),
        Ok(Order::Asks(_)) | Err(_) => s,
    }
}

// The bytes that a call wrote: never more than out has, and the test spares a proof of that here.
fn send(output: &mut Stdout, out: &[u8], written: usize) -> io::Result<()> {
    if written <= out.len() {
        output.write_all(&out[..written])?;
    }
    Ok(())
}

// One box through four calls, then the unit that a line sets.
fn main(rt: HostRuntime) -> io::Result<()> {
    let mut output = rt.stdout();
    let mut out = [0u8; 65536];
    let asked = filters(&mut out);
    send(&mut output, &out, asked.written)?;
    let set = streaming(asked.state, &mut out);
    send(&mut output, &out, set.written)?;
    let ticked = read_and_tick(set.state, &mut out);
    send(&mut output, &out, ticked.written)?;
    let line = answered(ticked.state, &mut out);
    send(&mut output, &out, line.written)?;
    let model = Model::Tpg362;
    let stored = after(model, model.defaults(), b"UNI,1");
    println!(output; "{}", stored.unit)
}
