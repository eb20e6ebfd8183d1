//! What a receiver does with a byte.
ghost use Rattle.std.specs.Prelude.{◌≡◌, ◌≤◌, true, Ok, [], ◌∷◌, ◌++◌, length};
ghost use Rattle.rule.specs.Frame.{judge};
ghost use Rattle.receiver.specs.Packet.{packet};
ghost use Rattle.receiver.specs.Events.{told, kept};

use crate::{Receiver, Receiving};
use arrayvec::ArrayVec;
use crc::CrcCcitt;
use words::Answer;

impl Receiver {
    /// A header is expected.
    pub fn new() -> Receiver
        ensures expects { packet result ≡ [] }
        ensures clear { result.rest.items ≡ [] }
    {
        Receiver {
            state: Receiving::Header,
            rest: ArrayVec::new(),
        }
    }

    /// The payload of a good frame, until the next byte comes.
    pub fn payload(&self) -> &[u8]
        ensures { result.now ≡ self.now.rest.items }
    {
        self.rest.as_slice()
    }

    /// The next byte from the host: whether it completes a good frame, or the answer to an error. A payload that is lent out here would hide
    /// from a contract what becomes of the receiver, so `payload` lends it.
    pub fn byte(&mut self, byte: u8) -> Result<bool, Answer>
        ensures count { result ≡ Ok true → length self.new.rest.items ≤ 19 }
        ensures event { told result self.new.rest.items ≡ judge (packet self.old ++ byte ∷ []) }
        ensures keeps { packet self.new ≡ kept (told result self.new.rest.items) (packet self.old ++ byte ∷ []) }
    {
        match (self.state, byte) {
            (Receiving::Header, 0x80) => {
                self.state = Receiving::Length;
                Ok(false)
            }
            (Receiving::Header, _) => Err(Answer::HeaderError),
            (Receiving::Length, 0) => {
                self.state = Receiving::Header;
                Err(Answer::PacketZeroError)
            }
            (Receiving::Length, 1..=19) => {
                self.rest.clear();
                self.state = Receiving::Rest { need: byte };
                Ok(false)
            }
            (Receiving::Length, _) => {
                self.state = Receiving::Header;
                Err(Answer::PacketSizeError)
            }
            (Receiving::Rest { need }, _) => {
                let need = usize::from(need);
                self.rest.push(byte);
                if self.rest.len() < need + 2 {
                    return Ok(false);
                }
                let (payload, sum) = self.rest.split_at(need);
                // By their index: that there are just two is known to the proof and not to the type.
                let good = u16::from_le_bytes([sum[0], sum[1]]) == crc::sum::<CrcCcitt>(payload);
                self.rest.truncate(need);
                self.state = Receiving::Header;
                if good {
                    Ok(true)
                } else {
                    Err(Answer::ChecksumError)
                }
            }
        }
    }
}
