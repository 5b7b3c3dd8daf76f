// Puts a file on the link: `send FILE [word=value ..]` writes the PDUs that carry it. docs/SEND.md has the words and the framing.
#![tactic(auto)]

mod capture;
mod command;
mod files;
mod frames;
mod output;
mod put;
mod run;

use send_text::tell;

fn main(rt: HostRuntime) {
    if let Err(e) = command::command(&rt) {
        tell::complain_at(&rt, e);
    }
}
