//! Each format read back, cut, changed and refused.

use super::{first_block, is_junk};
use crate::tables::case_in;
use bytes::Bytes;
use cw_base::{CodecError, Reader};
use cw_types::{Cert, ChainBlock, Commitment, Context, Message, Note, Proposal, Vote};
use std::alloc::Global;
use std::test::Fail;

// a message is never refused: junk counts as cut here
fn message_again(alloc: Global, reader: &mut Reader, out: &mut Vec<u8>) -> Result<(), CodecError> {
    if is_junk(alloc, reader.rest())? {
        return Err(CodecError::EndOfBuffer);
    }
    Ok(Message::read(alloc, reader)?.write(out)?)
}

// reads a value of a format, and writes it again
fn value_again(
    alloc: Global,
    format: &str,
    reader: &mut Reader,
    out: &mut Vec<u8>,
) -> Result<(), CodecError> {
    match format {
        "commitment" => Commitment::read(reader)?.write(out)?,
        "context" => Context::read(reader)?.write(out)?,
        "block" => ChainBlock::read(alloc, reader)?.write(out)?,
        "proposal" => Proposal::read(reader, 0)?.write(out)?,
        "vote" => Vote::read(reader)?.write(out)?,
        "cert" => Cert::read(alloc, reader)?.write(out)?,
        "note" => Note::read(alloc, reader)?.write(out)?,
        _ => message_again(alloc, reader, out)?,
    }
    Ok(())
}

// the bytes of the value that these bytes are read as
fn again(alloc: Global, format: &str, bytes: &[u8]) -> Result<Vec<u8>, CodecError> {
    let mut reader = Reader::new(bytes);
    let mut out = Vec::new(alloc);
    value_again(alloc, format, &mut reader, &mut out)?;
    reader.finish()?;
    Ok(out)
}

// whether these bytes, one of them changed, are refused; where they aren't, they are written as
// read
fn is_refused(alloc: Global, format: &str, bytes: &[u8], place: usize) -> Result<bool, Fail> {
    let mut changed = bytes.to_vec(alloc)?;
    if let Some(byte) = changed.get_mut(place) {
        *byte ^= 1;
    }
    match again(alloc, format, &changed) {
        Ok(out) if out.as_slice() == changed.as_slice() => Ok(false),
        Ok(_) => Err("bytes were read as another value's".into()),
        Err(_) => Ok(true),
    }
}

// how many bytes an example has, and where none can be changed; each cut of it is refused as cut
fn told(alloc: Global, format: &str, bytes: &[u8]) -> Result<String, Fail> {
    let mut places = Vec::new(alloc);
    for place in 0..bytes.len() {
        let cut = again(alloc, format, &bytes[..place]);
        if !matches!(cut, Err(CodecError::EndOfBuffer)) {
            return Err("bytes that are cut were read".into());
        }
        if is_refused(alloc, format, bytes, place)? {
            places.push(place)?;
        }
    }
    Ok(format!(in alloc; "{} {:?}", bytes.len(), places.as_slice())?)
}

// whether that is told of a line of the table
fn is_told(alloc: Global, line: &str) -> Result<bool, Fail> {
    let case = case_in(alloc, line)?;
    let told = told(alloc, case.name, &case.bytes)?;
    Ok(told.as_str() == case.want)
}

// Each format: an example, how many bytes it has, and where the lowest bit of a byte can't be
// changed. A commitment ends in two numbers that aren't 0. Of a block the length of the payload
// can't be 3, of a vote to notarize the tag can't be that to nullify, of a certificate neither the
// tag can be that to notarize nor the count another.
//
// The notes of a floor and of a prune differ in their tag alone, so it can be the other's. An epoch
// behind a later tag can't be 0, and a proposal or a vote in a note can't stand over a view that
// isn't earlier, so none but the last byte of its parent's view can be changed.
//
// Cut or changed at these places a message is junk. A chunk is known by its length and by its
// number of siblings; a vote may be ill-formed in a message.
const VALUES: &str = "\
commitment: 2*96 0 1 0 1: 100 [97, 99]
context: 0*15 1 0 1 0*8 2*96 0 1 0 1: 126 [123, 125]
block: 0*15 1 0 1 0*8 2*96 0 1 0 1 2*32 0*7 1 2 104 105: 169 [123, 125, 166]
proposal: 0*7 2 0*7 1 2*96 0 1 0 1: 116 [113, 115]
vote: 0 0*7 2 0*7 1 2*96 0 1 0 1: 117 [0, 114, 116]
vote: 1 0*7 2: 9 [0]
vote: 2 0*7 2 0*7 1 2*96 0 1 0 1: 117 [0, 114, 116]
vote: 3 0*7 1 0*7 2 0*7 1 2*96 0 1 0 1: 125 [0, 8, 122, 124]
vote: 4 0*7 1 0*7 2: 17 [0, 8]
vote: 5 0*7 1 0*7 2 0*7 1 2*96 0 1 0 1: 125 [0, 8, 122, 124]
cert: 1 0*7 9 0 2 0 0 0 3: 15 [0, 9, 10]
note: 0 2*96 0 1 0 1 0*15 1 0 1 0*8 2*96 0 1 0 1 2*32 0*7 1 2 104 105: \
270 [0, 98, 100, 224, 226, 267]
note: 1 0*7 2 2*96 0 1 0 1: 109 [0, 106, 108]
note: 2 0*7 2 0*7 1 2*96 0 1 0 1: 117 [0, 9, 10, 11, 12, 13, 14, 15, 114, 116]
note: 3 0 0*7 2 0*7 1 2*96 0 1 0 1: 118 [0, 1, 10, 11, 12, 13, 14, 15, 16, 115, 117]
note: 4 1 0*7 9 0 2 0 0 0 3: 16 [0, 1, 10, 11]
note: 5 0*7 9: 9 [0]
note: 6 0*7 9: 9 []
note: 7 0*7 9: 9 []
note: 8 0*7 1 2*96 0 1 0 1: 109 [0, 8, 106, 108]
note: 9 0*7 1 0*7 2 0*7 1 2*96 0 1 0 1: 125 [0, 8, 17, 18, 19, 20, 21, 22, 23, 122, 124]
note: 10 0*7 1 0*7 2 2*96 0 1 0 1: 117 [0, 8, 114, 116]
message: 0 2*96 0 1 0 1 1 7 0 1 0 0 0 2 0: 110 [0, 98, 100, 101, 109]
message: 1 0 3 0 0*7 2 0*7 1 2*96 0 1 0 1: 120 [0, 3, 117, 119]
message: 2 1 0*7 9 0 2 0 0 0 3: 16 [0, 1, 10, 11]
message: 3 0 3 2*96 0 1 0 1: 103 [0, 100, 102]
message: 4 0 3 0*7 9: 11 [0]
message: 5 0*15 1 0 1 0*8 2*96 0 1 0 1 2*32 0*7 1 2 104 105: 170 [0, 124, 126, 167]
";

#[test]
fn values_are_read_whole_and_in_one_spelling(rt: HostRuntime) -> Result<(), Fail> {
    let mut count = 0u8;
    for line in VALUES.lines() {
        assert!(rt; is_told(rt.alloc(), line)?, "{line}");
        count = count.wrapping_add(1);
    }
    assert_eq!(rt; count, 28);
    Ok(())
}

// whether these bytes are refused and why, and how many are left then
fn refusal(alloc: Global, format: &str, bytes: &[u8]) -> Result<String, Fail> {
    let mut reader = Reader::new(bytes);
    let mut out = Vec::new(alloc);
    let answer = value_again(alloc, format, &mut reader, &mut out);
    Ok(format!(in alloc; "{answer:?} {}", reader.rest().len())?)
}

// whether a line of the table is refused so
fn is_refusal(alloc: Global, line: &str) -> Result<bool, Fail> {
    let case = case_in(alloc, line)?;
    let refusal = refusal(alloc, case.name, &case.bytes)?;
    Ok(refusal.as_str() == case.want)
}

// In a block a height of 2^64 - 1 is taken, and so is a length above the limit; one in another form
// than its shortest, and bytes that are cut, are not. Notes have an unknown tag; a height of
// 2^64 - 1; a vote of view 0, by itself and before the number of its signers; an epoch of 0 behind
// a later tag, as the last vote has.
const REFUSALS: &str = "\
block: 0*15 1 0 1 0*8 2*96 0 1 0 1 2*32 0*7: Err(EndOfBuffer) 7
block: 0*15 1 0 1 0*8 2*96 0 1 0 1 2*32 255*8 0: Err(Invalid) 1
block: 0*15 1 0 1 0*8 2*96 0 1 0 1 2*32 0*7 1 128 0: Err(InvalidVarint) 2
block: 0*15 1 0 1 0*8 2*96 0 1 0 1 2*32 0*7 1 129 128 64 9: Err(TooLong) 1
block: 0*15 1 0 1 0*8 2*96 0 1 0 1 2*32 0*7 1 2 104: Err(EndOfBuffer) 1
note: 11 1: Err(Invalid) 1
note: 5 255*8 7: Err(Invalid) 1
note: 3 1 0*8 7: Err(Invalid) 1
note: 4 1 0*8 0 1 0 3: Err(Invalid) 4
note: 8 0*8 5: Err(Invalid) 1
vote: 4 0*7 1 0*7 1: Ok(()) 0
vote: 4 0*8 0*7 1: Err(Invalid) 8
";

#[test]
fn values_are_refused_at_their_first_fault(rt: HostRuntime) -> Result<(), Fail> {
    let mut count = 0u8;
    for line in REFUSALS.lines() {
        assert!(rt; is_refusal(rt.alloc(), line)?, "{line}");
        count = count.wrapping_add(1);
    }
    assert_eq!(rt; count, 12);
    Ok(())
}

// reads a value of a format that has a payload, of a text that is shared
#[tactic(auto, using(cw_base::proofs::Ends::end_itself))]
fn shared_value_again(
    alloc: Global,
    format: &str,
    text: &Bytes,
    out: &mut Vec<u8>,
) -> Result<usize, CodecError> {
    let mut reader = Reader::new(text.as_slice());
    match format {
        "block" => ChainBlock::read_shared(alloc, text, &mut reader)?.write(out)?,
        "note" => Note::read_shared(alloc, text, &mut reader)?.write(out)?,
        _ => Message::read_shared(alloc, text, &mut reader)?.write(out)?,
    }
    Ok(reader.rest().len())
}

// the same of a text that is not
fn lent_value_again(
    alloc: Global,
    format: &str,
    text: &[u8],
    out: &mut Vec<u8>,
) -> Result<usize, CodecError> {
    let mut reader = Reader::new(text);
    match format {
        "block" => ChainBlock::read(alloc, &mut reader)?.write(out)?,
        "note" => Note::read(alloc, &mut reader)?.write(out)?,
        _ => Message::read(alloc, &mut reader)?.write(out)?,
    }
    Ok(reader.rest().len())
}

// whether a text is read alike, shared and not
fn is_alike(alloc: Global, format: &str, text: &[u8]) -> Result<bool, Fail> {
    let shared = Bytes::copy_from_slice(alloc, text)?;
    let (mut one, mut other) = (Vec::new(alloc), Vec::new(alloc));
    let of_shared = shared_value_again(alloc, format, &shared, &mut one);
    let of_lent = lent_value_again(alloc, format, text, &mut other);
    Ok(of_shared == of_lent && one.as_slice() == other.as_slice())
}

// whether an example of a line, and each cut of it, is read alike; all count that have no payload
fn line_is_alike(alloc: Global, line: &str) -> Result<bool, Fail> {
    let case = case_in(alloc, line)?;
    if !matches!(case.name, "block" | "note" | "message") {
        return Ok(true);
    }
    for place in 0..=case.bytes.len() {
        if !is_alike(alloc, case.name, &case.bytes[..place])? {
            return Ok(false);
        }
    }
    Ok(true)
}

#[test]
fn a_shared_text_is_read_as_any_other(rt: HostRuntime) -> Result<(), Fail> {
    for line in VALUES.lines() {
        assert!(rt; line_is_alike(rt.alloc(), line)?, "{line}");
    }
    for line in REFUSALS.lines() {
        assert!(rt; line_is_alike(rt.alloc(), line)?, "{line}");
    }
    Ok(())
}

// whether bytes are those of a block, shared or not; none where they are no block's
fn is_block(alloc: Global, bytes: &[u8], block: &ChainBlock) -> Result<Option<bool>, Fail> {
    let found = ChainBlock::of_bytes(alloc, bytes)?;
    if ChainBlock::of_shared(alloc, &Bytes::copy_from_slice(alloc, bytes)?)? != found {
        return Err("shared bytes were read as another block's".into());
    }
    match found {
        Some(found) => Ok(Some(found == *block)),
        None => Ok(None),
    }
}

// that of the bytes of a block as they are, with one more behind them, and cut
fn told_of(alloc: Global, block: &ChainBlock) -> Result<[Option<bool>; 3], Fail> {
    let mut bytes = Vec::new(alloc);
    block.write(&mut bytes)?;
    let whole = is_block(alloc, &bytes, block)?;
    bytes.push(0)?;
    let longer = is_block(alloc, &bytes, block)?;
    bytes.truncate(168);
    Ok([whole, longer, is_block(alloc, &bytes, block)?])
}

fn told_of_first(alloc: Global) -> Result<[Option<bool>; 3], Fail> {
    let block = first_block(alloc)?;
    let told = told_of(alloc, &block);
    drop(block);
    told
}

#[test]
fn a_block_is_of_all_its_bytes(rt: HostRuntime) -> Result<(), Fail> {
    assert_eq!(rt; told_of_first(rt.alloc())?, [Some(true), None, None]);
    Ok(())
}
