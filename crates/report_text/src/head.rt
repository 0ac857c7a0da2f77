//! The head line.

ghost use Rattle.std.specs.Prelude.{◌≡◌, ◌+◌, ◌≤◌, ◌++◌, length, OnOk, OnErr};
ghost use Rattle.report_text.specs.Report.{batch_words, head_line, hash_words, mode_word, rule_words, share_word};
ghost use Rattle.report_text.specs.Lines.{room, Puts, text_in};

use crate::line::Line;
use crate::parts::Head;
use crate::pieces::{append, begin_line, end_line, put_named, put_word};
use hash_bits::Hashing;
use key_texts::CallRule;
use std::alloc::AllocError;
use trace_share::Share;

/// A batch has so many packets where the head line does not tell it.
const BATCH: u32 = 2_048;

/// Appends the head line.
pub fn head_text(out: &mut Vec<u8>, head: &Head) -> Result<(), AllocError>
    ensures appended { OnOk result (out.new.items ≡ out.old.items ++ head_line head.now) }
    ensures kept { OnErr result (out.new.items ≡ out.old.items) }
{
    let mut line = Line::new();
    put_head(&mut line, head);
    append(out, &line)
}

// Appends the head line.
fn put_head(out: &mut Line, head: &Head)
    requires { 256 ≤ room out.old }
    ensures { text_in out.new ≡ text_in out.old ++ head_line head.now }
{
    begin_line(out, b"flowdir");
    put_word(out, mode_word(head.play));
    put_named(out, b"seats", head.seats);
    put_named(out, b"items", head.items);
    put_named(out, b"depth", head.depth);
    put_named(out, b"start", head.start);
    put_word(out, b"hash");
    put_hashing(out, head.hashing);
    put_word(out, b"share");
    put_word(out, share_word(head.share));
    put_rule(out, head.calls);
    put_batch(out, head.batch);
    end_line(out);
}

// Appends which calls packets make, where these are counts.
#[tactic(auto, using(crate::proofs::LineLemmas::puts_none))]
fn put_rule(out: &mut Line, rule: CallRule)
    requires { 12 ≤ room out.old }
    ensures puts { Puts (text_in out.old) (rule_words rule) (text_in out.new) }
    ensures taken { room out.old ≤ room out.new + 12 }
{
    match rule {
        CallRule::Sessions => {}
        CallRule::Flows => {
            put_word(out, b"calls");
            put_word(out, b"flows");
        }
    }
}

/// Appends how many packets a batch has, where it is not the common number.
pub fn put_batch(out: &mut Line, batch: u32)
    requires { 17 ≤ room out.old }
    ensures puts { Puts (text_in out.old) (batch_words batch) (text_in out.new) }
    ensures taken { room out.old ≤ room out.new + 17 }
{
    if batch != BATCH {
        put_named(out, b"batch", batch);
    }
}

// The mode's word.
fn mode_word(play: bool) -> &'static [u8]
    ensures word { result.now ≡ mode_word play }
    ensures short { length result.now ≤ 5 }
{
    if play { b"play" } else { b"serve" }
}

// The share's word.
fn share_word(share: Share) -> &'static [u8]
    ensures word { result.now ≡ share_word share }
    ensures short { length result.now ≤ 5 }
{
    match share {
        Share::Round => b"round",
        Share::Block => b"block",
        Share::Flow => b"flow",
    }
}

// Appends the hash and its seed.
fn put_hashing(out: &mut Line, hashing: Hashing)
    requires { 40 ≤ room out.old }
    ensures puts { Puts (text_in out.old) (hash_words hashing) (text_in out.new) }
    ensures taken { room out.old ≤ room out.new + 40 }
{
    match hashing {
        Hashing::Mix(seed) => {
            put_word(out, b"mix");
            put_named(out, b"seed", seed);
        }
        Hashing::Ports(seed) => {
            put_word(out, b"ports");
            put_named(out, b"seed", seed);
        }
    }
}
