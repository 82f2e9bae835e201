// Writing messages.
ghost use Rattle.messages.specs.Reading.{MessageWritten};

use super::message::Message;
use book::Call;
use frames::{WriteFault, write_frame};
use values::Value;

// Writes the frame of a message behind what is written already, or leaves that as it is.
pub fn write_message(message: &Message, out: &mut Vec<u8>) -> Result<(), WriteFault>
    ensures { MessageWritten message.now out.old.items result out.new.items }
{
    let tag = message.tag();
    match message {
        Message::Terms(terms) => write_frame(tag, &terms.to_bytes(), out),
        Message::Buyer(buyer) => write_frame(tag, &buyer.to_bytes(), out),
        Message::Draw(draw) => write_frame(tag, &draw.to_bytes(), out),
        Message::Open(price) => write_frame(tag, &price.to_bytes(), out),
        Message::Call(Call::Enter(entry)) => write_frame(tag, &entry.to_bytes(), out),
        Message::Call(Call::Change(change)) => write_frame(tag, &change.to_bytes(), out),
        Message::Call(Call::Cancel(cancel)) => write_frame(tag, &cancel.to_bytes(), out),
        Message::Close(time) => write_frame(tag, &time.to_bytes(), out),
    }
}
