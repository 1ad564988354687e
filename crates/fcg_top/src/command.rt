//! The commands, from the bytes in to the bytes out.
ghost use Rattle.std.specs.Prelude.{◌≡◌, ◌≢◌, ◌↔◌, ◌≤◌, ◌<◌, ◌^◌, codes, map, string_bytes, None, IfSome, IfOk, OnOk, OnErr, IsErrOf};
ghost use Rattle.std.specs.Io.KnownBytes.{Appends};
ghost use Rattle.fcg_bytes.specs.Causes.{Rose};
ghost use Rattle.fcg_views.specs.Valid.{sites_of_all};
ghost use Rattle.fcg_top.specs.Words.{command_of};
ghost use Rattle.fcg_top.specs.Text.{line};
ghost use Rattle.fcg_top.specs.Answer.{Ends, GainsFront, Leaves, Tells, errors_of};
ghost use Rattle.fcg_top.specs.Listing.{LeavesListing, bundle_answer, text_of};
ghost use Rattle.fcg_top.specs.Packing.{LeavesPack};
ghost use Rattle.fcg_top.specs.Runs.{LeavesOf};
ghost use Rattle.fcg_top.specs.Internal.Buffered.{IsFresh, Sends, sink_told};
ghost use Rattle.fcg_top.specs.Internal.Stopped.{IsMeant, IsStatusOf, Reads, stop_line};

use crate::refusal::print_refusal;
use crate::status::{Status, Stop};
use crate::text::{push_list, push_sites};
use crate::text_buffer::TextBuffer;
use crate::words::{Command, Listing, parse_words};
use fcg_bytes::{Failed, Files, Sink, Source, read_all, write_whole};
use fcg_class::{BUNDLE_LIMIT, pack, read_bundle};
use fcg_views::Views;
use std::alloc::Global;

// What the input is as a bundle.
#[tactic(auto, unfolding(crate::specs::Listing::bundle_answer))]
fn read_views<S: Source>(alloc: Global, input: &mut S) -> Result<Views, Stop>
    ensures answer { IfSome (S.left input.old) (λ bytes. Reads result (bundle_answer bytes)) }
    ensures means { IfSome (S.left input.old) (λ bytes. IsMeant bytes result) }
    ensures few { IfOk result (λ views. sites_of_all views < 2 ^ 64) }
    ensures unwritten { ¬ IsErrOf result Stop.WriteFailed }
    ensures failed { IsErrOf result Stop.ReadFailed → Rose (S.faults input.old) (S.faults input.new) }
    ensures later { S.faults input.old ≤ S.faults input.new }
    ensures aside { S.aside input.new ≡ S.aside input.old }
{
    let bytes = read_all(alloc, input, BUNDLE_LIMIT)?;
    Ok(read_bundle(alloc, bytes.as_slice())?)
}

// Adds what a listing prints of a bundle's views.
fn push_listing<W: Sink>(
    alloc: Global,
    out: &mut TextBuffer,
    sink: &mut W,
    listing: Listing,
    views: &Views,
)
    requires { sites_of_all views.now < 2 ^ 64 }
    ensures { Sends (sink_told (W.taken sink.old) (W.faults sink.old) (W.aside sink.old)) out.old (sink_told (W.taken sink.new) (W.faults sink.new) (W.aside sink.new)) out.new (text_of listing views.now) }
{
    match listing {
        Listing::List => push_list(out, sink, views),
        Listing::Sites => push_sites(alloc, out, sink, views),
    }
}

// Writes what a listing prints of a bundle's views, through a buffer in which nothing waits.
fn write_listing<W: Sink>(
    alloc: Global,
    sink: &mut W,
    mut out: TextBuffer,
    listing: Listing,
    views: &Views,
) -> Result<(), Failed>
    requires few { sites_of_all views.now < 2 ^ 64 }
    requires fresh { IsFresh out }
    ensures ok { OnOk result (Appends (W.taken sink.old) (W.taken sink.new) (text_of listing views.now)) }
    ensures failed { OnErr result (GainsFront (W.taken sink.old) (W.taken sink.new) (text_of listing views.now) × Rose (W.faults sink.old) (W.faults sink.new)) }
    ensures later { W.faults sink.old ≤ W.faults sink.new }
    ensures aside { W.aside sink.new ≡ W.aside sink.old }
{
    push_listing(alloc, &mut out, sink, listing, views);
    out.finish(sink)
}

// Writes a line on the errors, as far as they take it.
fn tell<E: Sink>(errors: &mut E, text: &[u8])
    ensures line { Tells (E.faults errors.old) (E.faults errors.new) (E.taken errors.old) (E.taken errors.new) text.now }
    ensures later { E.faults errors.old ≤ E.faults errors.new }
    ensures aside { E.aside errors.new ≡ E.aside errors.old }
{
    let _ = write_whole(errors, text);
}

/// Tells on the errors that there was no memory, and says the status of that.
pub fn tell_no_memory<E: Sink>(errors: &mut E) -> Status
    ensures status { result ≡ Status.NoMemory }
    ensures line { Tells (E.faults errors.old) (E.faults errors.new) (E.taken errors.old) (E.taken errors.new) (line (codes "no memory")) }
    ensures later { E.faults errors.old ≤ E.faults errors.new }
    ensures aside { E.aside errors.new ≡ E.aside errors.old }
{
    tell(errors, b"no memory\n");
    Status::NoMemory
}

// Tells on the errors why a command stopped, and says its status.
fn report<E: Sink>(alloc: Global, errors: &mut E, stop: Stop) -> Status
    ensures status { IsStatusOf stop result }
    ensures line { Tells (E.faults errors.old) (E.faults errors.new) (E.taken errors.old) (E.taken errors.new) (stop_line result stop) }
    ensures later { E.faults errors.old ≤ E.faults errors.new }
    ensures aside { E.aside errors.new ≡ E.aside errors.old }
{
    match stop {
        Stop::Refused(refusal) => match print_refusal(alloc, refusal) {
            Ok(line) => {
                tell(errors, line.as_slice());
                Status::Refused
            }
            Err(_) => tell_no_memory(errors),
        },
        Stop::ReadFailed => {
            tell(errors, b"read failed\n");
            Status::ReadFailed
        }
        Stop::WriteFailed => {
            tell(errors, b"write failed\n");
            Status::WriteFailed
        }
        Stop::NoMemory => tell_no_memory(errors),
    }
}

// Prints a listing of a bundle's views.
fn print_views<W: Sink, E: Sink>(
    alloc: Global,
    listing: Listing,
    views: &Views,
    output: &mut W,
    errors: &mut E,
) -> Status
    requires { sites_of_all views.now < 2 ^ 64 }
    ensures status { (result ≢ Status.Words) × (result ≢ Status.ReadFailed) × (result ≢ Status.Refused) }
    ensures output { Leaves result (Ok (text_of listing views.now)) (W.taken output.old) (W.taken output.new) }
    ensures errors { Tells (E.faults errors.old) (E.faults errors.new) (E.taken errors.old) (E.taken errors.new) (errors_of result (Ok (text_of listing views.now))) }
    ensures ends { Ends result (record { taken = W.taken output.old; faults = W.faults output.old; aside = W.aside output.old }) (record { taken = W.taken output.new; faults = W.faults output.new; aside = W.aside output.new }) (record { taken = E.taken errors.old; faults = E.faults errors.old; aside = E.aside errors.old }) (record { taken = E.taken errors.new; faults = E.faults errors.new; aside = E.aside errors.new }) }
{
    match TextBuffer::new(alloc) {
        Ok(buffer) => match write_listing(alloc, output, buffer, listing, views) {
            Ok(()) => Status::Ok,
            Err(_) => report(alloc, errors, Stop::WriteFailed),
        },
        Err(_) => report(alloc, errors, Stop::NoMemory),
    }
}

// Prints a listing of the input.
fn run_listing<S: Source, W: Sink, E: Sink>(
    alloc: Global,
    listing: Listing,
    input: &mut S,
    output: &mut W,
    errors: &mut E,
) -> Status
    ensures leaves { LeavesListing listing result (record { left = S.left input.old; faults = S.faults input.old; aside = S.aside input.old }) (record { left = S.left input.new; faults = S.faults input.new; aside = S.aside input.new }) (record { taken = W.taken output.old; faults = W.faults output.old; aside = W.aside output.old }) (record { taken = W.taken output.new; faults = W.faults output.new; aside = W.aside output.new }) (record { taken = E.taken errors.old; faults = E.faults errors.old; aside = E.aside errors.old }) (record { taken = E.taken errors.new; faults = E.faults errors.new; aside = E.aside errors.new }) }
    ensures ends { Ends result (record { taken = W.taken output.old; faults = W.faults output.old; aside = W.aside output.old }) (record { taken = W.taken output.new; faults = W.faults output.new; aside = W.aside output.new }) (record { taken = E.taken errors.old; faults = E.faults errors.old; aside = E.aside errors.old }) (record { taken = E.taken errors.new; faults = E.faults errors.new; aside = E.aside errors.new }) }
{
    match read_views(alloc, input) {
        Ok(views) => print_views(alloc, listing, &views, output, errors),
        Err(stop) => report(alloc, errors, stop),
    }
}

// Writes the bundle of a folder.
#[tactic(auto, unfolding(crate::specs::Packing::pack_answer))]
fn run_pack<F: Files, W: Sink, E: Sink>(
    alloc: Global,
    folder: &str,
    files: &mut F,
    output: &mut W,
    errors: &mut E,
) -> Status
    ensures leaves { LeavesPack folder.now result (record { told = F.told files.old; faults = F.faults files.old }) (record { told = F.told files.new; faults = F.faults files.new }) (record { taken = W.taken output.old; faults = W.faults output.old; aside = W.aside output.old }) (record { taken = W.taken output.new; faults = W.faults output.new; aside = W.aside output.new }) (record { taken = E.taken errors.old; faults = E.faults errors.old; aside = E.aside errors.old }) (record { taken = E.taken errors.new; faults = E.faults errors.new; aside = E.aside errors.new }) }
    ensures ends { Ends result (record { taken = W.taken output.old; faults = W.faults output.old; aside = W.aside output.old }) (record { taken = W.taken output.new; faults = W.faults output.new; aside = W.aside output.new }) (record { taken = E.taken errors.old; faults = E.faults errors.old; aside = E.aside errors.old }) (record { taken = E.taken errors.new; faults = E.faults errors.new; aside = E.aside errors.new }) }
{
    match pack(alloc, files, folder, output) {
        Ok(_) => Status::Ok,
        Err(refusal) => report(alloc, errors, Stop::from(refusal)),
    }
}

/// Runs a command: from its words and its input, or the files that it reads, to its output, its line on the errors, and
/// its status. It always returns, and a failing write to the errors changes no status.
pub fn run<S: Source, W: Sink, E: Sink, F: Files>(
    alloc: Global,
    words: &[String],
    input: &mut S,
    output: &mut W,
    errors: &mut E,
    files: &mut F,
) -> Status
    // The words decide first.
    ensures words { (result ≡ Status.Words) ↔ (command_of (map string_bytes words.now) ≡ None) }

    // The output gains the answer of the command that the words give, and the errors its line; each refusal and failure
    // has its cause, want of memory apart; and what the command doesn't use is left alone.
    ensures leaves { LeavesOf (command_of (map string_bytes words.now)) result (record { left = S.left input.old; faults = S.faults input.old; aside = S.aside input.old }) (record { left = S.left input.new; faults = S.faults input.new; aside = S.aside input.new }) (record { taken = W.taken output.old; faults = W.faults output.old; aside = W.aside output.old }) (record { taken = W.taken output.new; faults = W.faults output.new; aside = W.aside output.new }) (record { taken = E.taken errors.old; faults = E.faults errors.old; aside = E.aside errors.old }) (record { taken = E.taken errors.new; faults = E.faults errors.new; aside = E.aside errors.new }) (record { told = F.told files.old; faults = F.faults files.old }) (record { told = F.told files.new; faults = F.faults files.new }) }

    // Nothing else is written, whatever the input and the files tell.
    ensures ends { Ends result (record { taken = W.taken output.old; faults = W.faults output.old; aside = W.aside output.old }) (record { taken = W.taken output.new; faults = W.faults output.new; aside = W.aside output.new }) (record { taken = E.taken errors.old; faults = E.faults errors.old; aside = E.aside errors.old }) (record { taken = E.taken errors.new; faults = E.faults errors.new; aside = E.aside errors.new }) }
{
    match parse_words(words) {
        Some(Command::Print(listing)) => run_listing(alloc, listing, input, output, errors),
        Some(Command::Pack(folder)) => run_pack(alloc, folder, files, output, errors),
        None => {
            tell(errors, b"words\n");
            Status::Words
        }
    }
}
