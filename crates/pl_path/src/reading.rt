ghost use Rattle.std.specs.Prelude.{◌≡◌, [], IfOk};
ghost use Rattle.pl_path.specs.Steps as spec;
ghost use Rattle.pl_path.specs.Written as grammar;

use crate::segment::{Path, Segment};
use pl_value::{Bytes, OutOfMemory};
use std::alloc::Global;

/// The greatest index that a path may have.
const GREATEST_INDEX: u64 = 2147483647;

/// Where the reading of a path stands between two bytes.
#[derive(Clone, Copy, Debug, PartialEq, Eq)]
pub enum Place {
    /// Before the first byte.
    Start,
    /// Behind a `.`.
    Dot,
    /// In a name that is `*` so far.
    Star,
    /// In a name.
    Name,
    /// Behind a `[`.
    Open,
    /// Behind an index that is `0`.
    Zero,
    /// In an index that begins with another digit.
    Digits,
    /// In a quoted text.
    Quoted,
    /// Behind a `\` in a quoted text.
    Escaped,
    /// Behind the quoted text's last `"`.
    Unquoted,
    /// Behind a `]`.
    Closed,
}

impl Place {
    /// The place of a refusal, where the byte at this one may not stand.
    pub fn refused_at(self, at: u64) -> u64
        ensures { result ≡ spec.refused_at self at }
    {
        match self {
            Place::Star => at.saturating_sub(1),
            _ => at,
        }
    }
}

/// What was read of a path.
#[derive(Debug, Drop)]
pub struct Reading {
    /// The segments that were ended.
    pub segments: Path,
    /// What was read of the key that is being read, or the last key.
    pub key: Bytes,
    /// What was read of the index that is being read, or the last index.
    pub index: u64,
    pub place: Place,
}

impl Reading {
    /// Before the first byte; takes no memory.
    pub fn new(alloc: Global) -> Reading
        ensures { result ≡ spec.nothing_read }
    {
        Reading {
            segments: Path::new(alloc),
            key: Bytes::from_vec(Vec::new(alloc)),
            index: 0,
            place: Place::Start,
        }
    }

    /// What was read after one byte more, if that may stand here.
    #[tactic(auto, unfolding(crate::specs::Steps::step))]
    pub fn step(self, byte: u8) -> Result<Option<Reading>, OutOfMemory>
        ensures { IfOk result (λ after. after ≡ spec.step self byte) }
    {
        match self.place {
            Place::Start if byte == b'[' => Ok(Some(self.at(Place::Open))),
            Place::Start | Place::Dot => self.begins_name(byte),
            Place::Star => self.goes_on_from_star(byte),
            Place::Name => self.goes_on_in_name(byte),
            Place::Open => self.opens(byte),
            Place::Zero => self.closes(Segment::Index(0), byte),
            Place::Digits => self.goes_on_in_index(byte),
            Place::Quoted => self.quotes(byte),
            Place::Escaped => self.escapes(byte),
            Place::Unquoted => self.closes_key(byte),
            Place::Closed => Ok(self.follows(byte)),
        }
    }

    /// The segments, where a path may end here.
    #[tactic(auto, unfolding(crate::specs::Steps::ended))]
    pub fn end(self) -> Result<Option<Path>, OutOfMemory>
        ensures { IfOk result (λ path. path ≡ spec.ended self) }
    {
        match self.place {
            Place::Name => Ok(Some(self.with_key()?.segments)),
            Place::Closed => Ok(Some(self.segments)),
            _ => Ok(None),
        }
    }

    fn at(self, place: Place) -> Reading
        ensures { result ≡ record self { place = place } }
    {
        Reading { place, ..self }
    }

    fn with_segment(self, segment: Segment) -> Result<Reading, OutOfMemory>
        ensures { IfOk result (λ after. after ≡ spec.with_segment self segment) }
    {
        let mut after = self.at(Place::Closed);
        after.segments.push(segment)?;
        Ok(after)
    }

    fn with_key(self) -> Result<Reading, OutOfMemory>
        ensures { IfOk result (λ after. after ≡ spec.with_segment self (Segment.Key self.key)) }
    {
        let key = self.key.copy()?;
        self.with_segment(Segment::Key(key))
    }

    fn adds_to_key(self, byte: u8, place: Place) -> Result<Option<Reading>, OutOfMemory>
        ensures { IfOk result (λ after. after ≡ spec.adds_to_key self byte place) }
    {
        let mut after = self.at(place);
        after.key.extend(&[byte])?;
        Ok(Some(after))
    }

    fn with_new_key(self, place: Place) -> Reading
        ensures { result ≡ record self { key = []; place = place } }
    {
        let Reading {
            segments,
            key,
            index,
            ..
        } = self;
        let mut bytes = key.into_vec();
        bytes.clear();
        Reading {
            segments,
            key: Bytes::from_vec(bytes),
            index,
            place,
        }
    }

    fn begins_name(self, byte: u8) -> Result<Option<Reading>, OutOfMemory>
        ensures { IfOk result (λ after. after ≡ spec.begins_name self byte) }
    {
        if is_name_byte(byte) {
            let place = name_place(byte);
            self.with_new_key(place).adds_to_key(byte, place)
        } else {
            Ok(None)
        }
    }

    fn goes_on_from_star(self, byte: u8) -> Result<Option<Reading>, OutOfMemory>
        ensures { IfOk result (λ after. after ≡ spec.step_at Place.Star self byte) }
    {
        if is_name_byte(byte) {
            self.adds_to_key(byte, Place::Name)
        } else {
            Ok(None)
        }
    }

    fn goes_on_in_name(self, byte: u8) -> Result<Option<Reading>, OutOfMemory>
        ensures { IfOk result (λ after. after ≡ spec.step_at Place.Name self byte) }
    {
        if is_name_byte(byte) {
            self.adds_to_key(byte, Place::Name)
        } else {
            Ok(self.with_key()?.follows(byte))
        }
    }

    fn follows(self, byte: u8) -> Option<Reading>
        ensures { result ≡ spec.follows self byte }
    {
        match byte {
            b'.' => Some(self.at(Place::Dot)),
            b'[' => Some(self.at(Place::Open)),
            _ => None,
        }
    }

    fn opens(self, byte: u8) -> Result<Option<Reading>, OutOfMemory>
        ensures { IfOk result (λ after. after ≡ spec.opens self byte) }
    {
        if byte == b'"' {
            return Ok(Some(self.with_new_key(Place::Quoted)));
        }
        if !byte.is_ascii_digit() {
            return Ok(None);
        }
        let index = (byte - b'0') as u64;
        let place = if index == 0 {
            Place::Zero
        } else {
            Place::Digits
        };
        Ok(Some(Reading {
            index,
            place,
            ..self
        }))
    }

    fn closes(self, segment: Segment, byte: u8) -> Result<Option<Reading>, OutOfMemory>
        ensures { IfOk result (λ after. after ≡ spec.closes self segment byte) }
    {
        if byte == b']' {
            Ok(Some(self.with_segment(segment)?))
        } else {
            Ok(None)
        }
    }

    fn closes_key(self, byte: u8) -> Result<Option<Reading>, OutOfMemory>
        ensures { IfOk result (λ after. after ≡ spec.closes self (Segment.Key self.key) byte) }
    {
        if byte == b']' {
            Ok(Some(self.with_key()?))
        } else {
            Ok(None)
        }
    }

    fn goes_on_in_index(self, byte: u8) -> Result<Option<Reading>, OutOfMemory>
        ensures { IfOk result (λ after. after ≡ spec.step_at Place.Digits self byte) }
    {
        match with_digit(self.index, byte) {
            Some(index) => Ok(Some(Reading { index, ..self })),
            None => {
                let index = self.index;
                self.closes(Segment::Index(index), byte)
            }
        }
    }

    fn quotes(self, byte: u8) -> Result<Option<Reading>, OutOfMemory>
        ensures { IfOk result (λ after. after ≡ spec.quotes self byte) }
    {
        match byte {
            b'"' => Ok(Some(self.at(Place::Unquoted))),
            b'\\' => Ok(Some(self.at(Place::Escaped))),
            _ => self.adds_to_key(byte, Place::Quoted),
        }
    }

    fn escapes(self, byte: u8) -> Result<Option<Reading>, OutOfMemory>
        ensures { IfOk result (λ after. after ≡ spec.step_at Place.Escaped self byte) }
    {
        if byte == b'"' || byte == b'\\' {
            self.adds_to_key(byte, Place::Quoted)
        } else {
            Ok(None)
        }
    }
}

fn is_name_byte(byte: u8) -> bool
    ensures { result ≡ grammar.is_name_byte byte }
{
    !(byte == b'.' || byte == b'[' || byte == b']' || byte == b'"')
}

fn name_place(byte: u8) -> Place
    ensures { result ≡ spec.name_place byte }
{
    if byte == b'*' {
        Place::Star
    } else {
        Place::Name
    }
}

/// The index with one digit more, if it goes on with this byte.
fn with_digit(index: u64, byte: u8) -> Option<u64>
    ensures { result ≡ spec.with_digit_if_any index byte }
{
    if !byte.is_ascii_digit() {
        return None;
    }
    let index = index
        .saturating_mul(10)
        .saturating_add((byte - b'0') as u64);
    if index <= GREATEST_INDEX {
        Some(index)
    } else {
        None
    }
}
