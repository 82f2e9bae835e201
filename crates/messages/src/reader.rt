// Reading a tender file message by message.
ghost use Rattle.std.specs.Prelude.{◌≡◌, OnErr};
ghost use Rattle.messages.specs.Reading.{file_of, next_place, OpenedAt, NextMessage};

use super::message::{LAYOUTS, Message, message_in};
use frames::{Frame, FrameFault, Reader};

// A message, and the place of its frame's first byte.
#[derive(Clone, Copy)]
pub struct Placed {
    pub place: usize,
    pub message: Message,
}

// A tender file that is read from its start.
#[derive(Drop)]
pub struct MessageReader<'a> {
    reader: Reader<'a>,
}

impl<'a> MessageReader<'a> {
    // Begins to read a tender file, unless it is too long.
    pub fn open(file: &'a [u8]) -> Result<MessageReader<'a>, FrameFault>
        ensures { OpenedAt file.now result }
    {
        let reader = Reader::open(file)?;
        Ok(MessageReader { reader })
    }

    // Answers the place of the next message.
    pub fn place(&self) -> usize
        ensures { result ≡ next_place self.now }
    {
        self.reader.place()
    }

    // Answers the next message, or none at the end of the file. A fault leaves the reader where it was.
    pub fn next(&mut self) -> Result<Option<Placed>, FrameFault>
        ensures next { NextMessage (file_of self.old) (next_place self.old) result (next_place self.new) }
        ensures file { file_of self.new ≡ file_of self.old }
        ensures unchanged { OnErr result (self.new ≡ self.old) }
    {
        let Some(Frame { tag, place, value }) = self.reader.next(&LAYOUTS)? else {
            return Ok(None);
        };
        let message = message_in(tag, value).ok_or(FrameFault::UnknownTag(place))?;
        Ok(Some(Placed { place, message }))
    }
}
