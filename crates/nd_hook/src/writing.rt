//! How a reply is written.

ghost use Rattle.std.specs.Prelude.{◌≡◌, ◌||◌, is_err, OnOk, OnErr};
ghost use Rattle.std.specs.Io.KnownBytes.{Appends};
ghost use Rattle.nd_hook.specs.ReplyText.{line, accept_text, reply_text, IsInList};
ghost use Rattle.nd_devices.specs.Written.{WritesPart};

use crate::kinds::Reply;
use nd_devices::{Told, WriteError};
use nd_machines::Machine;
use std::io;

/// Writes a reply: `# accept` and on a second line the URI of the accepted machine, or `# postpone`,
/// `# decline`, `# decline-permanently`; each line ends with a newline. It takes no memory.
///
/// Refusal 1 `Write`: the device refused a write. Its mark is then set, and a part of the text, from
/// its beginning, may be out.
pub fn write_reply<W: io::Write>(
    reply: &Reply,
    machines: &[Machine],
    out: &mut Told<W>,
) -> Result<(), WriteError>
    requires { IsInList machines.now reply.now }
    ensures written { OnOk result (Appends (W.contents out.old.device) (W.contents out.new.device) (reply_text machines.now reply.now)) }
    ensures partly { OnErr result (WritesPart (W.contents out.old.device) (W.contents out.new.device) (reply_text machines.now reply.now)) }
    ensures mark { out.new.is_marked ≡ (out.old.is_marked || is_err result) }
{
    match reply {
        Reply::Accept(place) => write_accept(machines[*place].uri(), out),
        Reply::Postpone => write_line(b"# postpone", out),
        Reply::Decline => write_line(b"# decline", out),
        Reply::DeclinePermanently => write_line(b"# decline-permanently", out),
    }
}

/// Writes the two lines that accept a machine.
#[tactic(auto, using(nd_devices::proofs::Pieces::writes))]
fn write_accept<W: io::Write>(uri: &[u8], out: &mut Told<W>) -> Result<(), WriteError>
    ensures written { OnOk result (Appends (W.contents out.old.device) (W.contents out.new.device) (accept_text uri.now)) }
    ensures partly { OnErr result (WritesPart (W.contents out.old.device) (W.contents out.new.device) (accept_text uri.now)) }
    ensures mark { out.new.is_marked ≡ (out.old.is_marked || is_err result) }
{
    write_line(b"# accept", out)?;
    write_line(uri, out)
}

/// Writes one line and its newline.
#[tactic(auto, using(nd_devices::proofs::Pieces::writes), unfolding(crate::specs::ReplyText::line))]
fn write_line<W: io::Write>(text: &[u8], out: &mut Told<W>) -> Result<(), WriteError>
    ensures written { OnOk result (Appends (W.contents out.old.device) (W.contents out.new.device) (line text.now)) }
    ensures partly { OnErr result (WritesPart (W.contents out.old.device) (W.contents out.new.device) (line text.now)) }
    ensures mark { out.new.is_marked ≡ (out.old.is_marked || is_err result) }
{
    out.put_all(text)?;
    out.put_all(b"\n")?;
    Ok(())
}
