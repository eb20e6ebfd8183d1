//! What a layout says of places and addresses.
ghost use Rattle.std.specs.Prelude.{◌≡◌, ◌*◌, if◌then◌else◌, Some, None, Ok, Err, nat_lt};
ghost use Rattle.layout.specs.Areas.{exists, numbers, size as the_size, application_size, download_place, application_place, boot_place, address as the_address};
ghost use Rattle.words.specs.declared.Refusal.TheVariants.{BadLayout};

use super::Layout;
use words::Refusal;

// The status segment lies below the download area.
const DOWNLOAD: usize = 512;

impl Layout {
    /// Refused where the numbers are outside their limits.
    pub fn new(k: u8, b: u8) -> Result<Layout, Refusal>
        ensures { numbers result ≡ (if exists k b then Ok (k, b) else Err BadLayout) }
    {
        match (k, b) {
            (1..=48, 1..=8) => Ok(Layout { k, b }),
            _ => Err(Refusal::BadLayout),
        }
    }

    /// One segment of each.
    pub fn least() -> Layout
        ensures k { result.k ≡ 1 }
        ensures b { result.b ≡ 1 }
    {
        Layout { k: 1, b: 1 }
    }

    /// The segments of an application.
    pub fn k(&self) -> usize
        ensures { result ≡ self.now.k }
    {
        usize::from(self.k)
    }

    /// The segments of the boot area.
    pub fn b(&self) -> usize
        ensures { result ≡ self.now.b }
    {
        usize::from(self.b)
    }

    /// The bytes of a memory that is so divided.
    pub fn size(&self) -> usize
        ensures { result ≡ the_size self.now }
    {
        512 * (1 + 2 * self.k() + self.b())
    }

    /// The bytes of an application.
    pub fn application_size(&self) -> usize
        ensures { result ≡ application_size self.now }
    {
        512 * self.k()
    }

    /// The first place of the download area.
    pub fn download_place(&self) -> usize
        ensures { result ≡ download_place }
    {
        DOWNLOAD
    }

    /// The first place of the application area.
    pub fn application_place(&self) -> usize
        ensures { result ≡ application_place self.now }
    {
        512 * (1 + self.k())
    }

    /// The first place of the boot area.
    pub fn boot_place(&self) -> usize
        ensures { result ≡ boot_place self.now }
    {
        512 * (1 + 2 * self.k())
    }

    /// The address at which the application area starts.
    pub fn application_address(&self) -> u16
        ensures { result ≡ the_address self.now (application_place self.now) }
    {
        (0x10000 - (self.size() - self.application_place())) as u16
    }

    /// The address of a place; None past the end of the memory.
    pub fn address(&self, place: usize) -> Option<u16>
        ensures { result ≡ (if nat_lt place (the_size self.now) then Some (the_address self.now place) else None) }
    {
        let size = self.size();
        if place < size {
            u16::try_from(place + (0x10000 - size)).ok()
        } else {
            None
        }
    }
}
