//! Texts that are written to a sink in pieces, through a buffer.
ghost use Rattle.std.specs.Prelude.{◌≡◌, ◌<◌, [], ◌∷◌, true, false, OnOk, OnErr, IfOk, string_bytes};
ghost use Rattle.std.specs.Fmt.{digit_glyph};
ghost use Rattle.fcg_views.specs.Escape.{escaped};
ghost use Rattle.fcg_top.specs.Internal.Buffered.{IsFresh, Sends, Writes, sink_told};

use fcg_bytes::{Failed, Sink, write_whole};
use fcg_views::{NoMemory, Place, push_escaped};
use std::alloc::Global;

// How many bytes the buffer has room for.
const BUFFER: usize = 65_536;

// How many bytes of a name are escaped at a time, at most: their text fits into the buffer.
const PIECE: usize = 16_384;

/// The last bytes of a text on its way to a sink. It takes its room when it is made, and no memory after that; a sink that
/// fails is remembered, and gets nothing more.
#[derive(Drop)]
pub struct TextBuffer {
    pending: String,
    failed: bool,
}

// Writes bytes to a sink that hasn't failed, and says whether it has failed now.
fn write_more<W: Sink>(sink: &mut W, failed: bool, bytes: &[u8]) -> bool
    ensures { Writes failed result (sink_told (W.taken sink.old) (W.faults sink.old) (W.aside sink.old)) (sink_told (W.taken sink.new) (W.faults sink.new) (W.aside sink.new)) bytes.now }
{
    if failed {
        return true;
    }
    match write_whole(sink, bytes) {
        Ok(()) => false,
        Err(_) => true,
    }
}

// A hexadecimal digit.
fn digit(number: u8) -> u8
    requires { number < 16 }
    ensures { result ≡ digit_glyph true number }
{
    if number < 10 {
        48 + number
    } else {
        55 + number
    }
}

impl TextBuffer {
    /// A buffer in which nothing waits.
    pub fn new(alloc: Global) -> Result<TextBuffer, NoMemory>
        ensures { IfOk result IsFresh }
    {
        let pending = String::with_capacity(alloc, BUFFER)?;
        Ok(TextBuffer {
            pending,
            failed: false,
        })
    }

    // Hands what waits to the sink.
    fn flush<W: Sink>(&mut self, sink: &mut W)
        ensures sends { Sends (sink_told (W.taken sink.old) (W.faults sink.old) (W.aside sink.old)) self.old (sink_told (W.taken sink.new) (W.faults sink.new) (W.aside sink.new)) self.new [] }
        ensures empty { string_bytes self.new.pending ≡ [] }
    {
        self.failed = write_more(sink, self.failed, self.pending.as_bytes());
        self.pending.clear();
    }

    // Hands what waits to the sink where there is no room for so many bytes more.
    fn make_room<W: Sink>(&mut self, sink: &mut W, size: usize)
        ensures { Sends (sink_told (W.taken sink.old) (W.faults sink.old) (W.aside sink.old)) self.old (sink_told (W.taken sink.new) (W.faults sink.new) (W.aside sink.new)) self.new [] }
    {
        if BUFFER.saturating_sub(self.pending.len()) < size {
            self.flush(sink);
        }
    }

    // Writes bytes behind what waits.
    fn write_through<W: Sink>(&mut self, sink: &mut W, bytes: &[u8])
        ensures { Sends (sink_told (W.taken sink.old) (W.faults sink.old) (W.aside sink.old)) self.old (sink_told (W.taken sink.new) (W.faults sink.new) (W.aside sink.new)) self.new bytes.now }
    {
        self.flush(sink);
        self.failed = write_more(sink, self.failed, bytes);
    }

    /// Adds a text that is short beside the buffer.
    pub fn push<W: Sink>(&mut self, sink: &mut W, text: &str)
        ensures { Sends (sink_told (W.taken sink.old) (W.faults sink.old) (W.aside sink.old)) self.old (sink_told (W.taken sink.new) (W.faults sink.new) (W.aside sink.new)) self.new text.now }
    {
        self.make_room(sink, text.len());
        match self.pending.push_str(text) {
            Ok(()) => {}
            Err(_) => self.write_through(sink, text.as_bytes()),
        }
    }

    // Writes the escape of a byte.
    fn write_escape<W: Sink>(&mut self, sink: &mut W, byte: u8, place: Place)
        ensures { Sends (sink_told (W.taken sink.old) (W.faults sink.old) (W.aside sink.old)) self.old (sink_told (W.taken sink.new) (W.faults sink.new) (W.aside sink.new)) self.new (escaped place (byte ∷ [])) }
    {
        if place.may_stand(byte) {
            self.write_through(sink, &[byte]);
        } else {
            self.write_through(sink, &[b'%', digit(byte / 16), digit(byte % 16)]);
        }
    }

    // Writes a name byte by byte, where the buffer couldn't take it.
    #[tactic(auto, unfolding(fcg_views::specs::Escape::escaped))]
    fn write_escaped<W: Sink>(&mut self, sink: &mut W, bytes: &[u8], place: Place)
        ensures { Sends (sink_told (W.taken sink.old) (W.faults sink.old) (W.aside sink.old)) self.old (sink_told (W.taken sink.new) (W.faults sink.new) (W.aside sink.new)) self.new (escaped place bytes.now) }
    {
        for byte in bytes {
            self.write_escape(sink, *byte, place);
        }
    }

    // Adds a name of at most `PIECE` bytes.
    fn push_piece<W: Sink>(&mut self, sink: &mut W, bytes: &[u8], place: Place)
        ensures { Sends (sink_told (W.taken sink.old) (W.faults sink.old) (W.aside sink.old)) self.old (sink_told (W.taken sink.new) (W.faults sink.new) (W.aside sink.new)) self.new (escaped place bytes.now) }
    {
        if self.failed {
            return;
        }
        self.make_room(sink, bytes.len().saturating_mul(3));
        match push_escaped(&mut self.pending, bytes, place) {
            Ok(()) => {}
            Err(_) => self.write_escaped(sink, bytes, place),
        }
    }

    /// Adds a name, escaped as `fcg_views::push_escaped` does.
    pub fn push_name<W: Sink>(&mut self, sink: &mut W, name: &[u8], place: Place)
        ensures { Sends (sink_told (W.taken sink.old) (W.faults sink.old) (W.aside sink.old)) self.old (sink_told (W.taken sink.new) (W.faults sink.new) (W.aside sink.new)) self.new (escaped place name.now) }
    {
        let mut rest = name;
        while rest.len() > PIECE {
            let (piece, after) = rest.split_at(PIECE);
            self.push_piece(sink, piece, place);
            rest = after;
        }
        self.push_piece(sink, rest, place);
    }

    /// Hands what still waits to the sink. After `Failed`, which the sink has counted, it took a front of the text.
    pub fn finish<W: Sink>(&mut self, sink: &mut W) -> Result<(), Failed>
        ensures sends { Sends (sink_told (W.taken sink.old) (W.faults sink.old) (W.aside sink.old)) self.old (sink_told (W.taken sink.new) (W.faults sink.new) (W.aside sink.new)) self.new [] }
        ensures empty { string_bytes self.new.pending ≡ [] }
        ensures ok { OnOk result (self.new.failed ≡ false) }
        ensures failed { OnErr result (self.new.failed ≡ true) }
    {
        self.flush(sink);
        if self.failed {
            return Err(Failed);
        }
        Ok(())
    }
}
