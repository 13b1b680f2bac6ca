//! Exports that answer query lines.

ghost use Rattle.std.specs.Prelude.{◌≡◌, ◌≤◌, ◌⊎◌, IsSome, drop, length, min};
ghost use Rattle.rt_embed.specs.Costs.{opened_by_text};
ghost use Rattle.rtfilter_c.specs.Calls.{HasReply, HoldsNoReply, HoldsRun, HoldsSame, IsForgotten, Opens, copied};

use crate::codes::{FAULTY_LINE, NO_MEMORY, OK};
use rt_handle::Handle;
use std::alloc::Global;

/// Answers query lines: [`OK`], [`FAULTY_LINE`] or [`NO_MEMORY`]. The reply is kept, instead of the last one. Writes its
/// length and its first bytes, as many as fit. After [`NO_MEMORY`] it is empty.
#[unsafe(no_mangle)]
pub extern "C" fn rtfilter_engine_ask(
    alloc: Global,
    session: &mut Handle,
    lines: &[u8],
    buffer: &mut [u8],
    reply_len: &mut usize,
) -> u8
    requires open { IsSome session.old.held }
    ensures run { result ≤ FAULTY_LINE
        → HoldsRun session.old.held lines.now result session.new.held }
    ensures worked { result ≤ FAULTY_LINE → Opens session.old.held session.new.held
        (λ tree. opened_by_text tree lines.now) }
    ensures memory { result ≡ NO_MEMORY → HoldsNoReply session.new.held }
    ensures same { HoldsSame session.old.held session.new.held }
    ensures reply { HasReply session.new.held (λ reply.
        (reply_len.new ≡ length reply) × (buffer.new ≡ copied reply buffer.old)) }
    ensures codes { (result ≡ OK) ⊎ (result ≡ FAULTY_LINE) ⊎ (result ≡ NO_MEMORY) }
{
    let mut held = session.take(alloc);
    let code = match held.ask(alloc, lines) {
        Ok(true) => FAULTY_LINE,
        Ok(false) => OK,
        Err(_) => NO_MEMORY,
    };
    let reply = held.reply();
    copy_front(reply, buffer);
    *reply_len = reply.len();
    session.put(held);
    code
}

/// Copies the bytes of the reply from an index on, as many as there are and fit, and returns their number.
#[unsafe(no_mangle)]
pub extern "C" fn rtfilter_engine_reply(
    alloc: Global,
    session: &mut Handle,
    from: usize,
    buffer: &mut [u8],
) -> usize
    requires open { IsSome session.old.held }
    ensures same { session.new.held ≡ session.old.held }
    ensures many { HasReply session.old.held (λ reply.
        result ≡ min (length (drop from reply)) (length buffer.old)) }
    ensures reply { HasReply session.old.held (λ reply.
        buffer.new ≡ copied (drop from reply) buffer.old) }
{
    let held = session.take(alloc);
    let reply = held.reply();
    let many = copy_front(&reply[from.min(reply.len())..], buffer);
    session.put(held);
    many
}

/// Clears the reply, and frees its memory.
#[unsafe(no_mangle)]
pub extern "C" fn rtfilter_engine_forget(alloc: Global, session: &mut Handle)
    requires open { IsSome session.old.held }
    ensures { IsForgotten session.old.held session.new.held }
{
    let mut held = session.take(alloc);
    held.forget_reply(alloc);
    session.put(held);
}

/// Copies the first bytes, as many as there are and fit, and returns their number.
pub(crate) fn copy_front(bytes: &[u8], buffer: &mut [u8]) -> usize
    ensures many { result ≡ min (length bytes.now) (length buffer.old) }
    ensures copied { buffer.new ≡ copied bytes.now buffer.old }
{
    let many = bytes.len().min(buffer.len());
    buffer[..many].copy_from_slice(&bytes[..many]);
    many
}
