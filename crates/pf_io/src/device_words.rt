// The system's random device as random words.
ghost use Rattle.std.specs.Prelude.{◌≡◌, OnOk};
ghost use Rattle.pf_io.specs.Counts.{HasCause};
ghost use Rattle.pf_io.specs.Words.{TakesWord};
ghost use Rattle.pf_io.specs.Std.{DeviceState, device_words_of};

use crate::counts::raise;
use crate::files::beside_streams;
use crate::{Words, WordsFault};
use std::fs::{self, File};
use std::io::{self, ErrorKind, Read};
use std::marker::Model;
use std::os::unix::fs::FileTypeExt;
use std::rt::Files;

const DEVICE: &str = "/dev/urandom";

/// Words of the system's random device, which tell their count of faults alone. The device is opened once. What is no
/// character device is none, and a word that came just before is a fault.
#[derive(Drop)]
pub struct DeviceWords<R: Files<File = File> + Drop> {
    system: R,
    device: Option<File>,
    last: Option<[u8; 16]>,
    faults: u64,
}

impl<R: Files<File = File> + Drop> Model for DeviceWords<R> {
    ghost use Rattle.pf_io.specs.Std.{DeviceState};

    ghost Value = { DeviceState };

    ghost view = { λ w. record { faults = w.faults } };
}

impl<R: Files<File = File> + Drop> DeviceWords<R> {
    /// The random words of the system.
    pub fn new(system: R) -> Self
        ensures { result ≡ record { faults = 0 } }
    {
        DeviceWords {
            system,
            device: None,
            last: None,
            faults: 0,
        }
    }

    // Reads a word of the device, which is opened at the first one.
    fn draw(&mut self) -> io::Result<[u8; 16]>
        ensures { self.new.faults ≡ self.old.faults }
    {
        let device = match self.device.take() {
            Some(device) => device,
            None => open_device(&self.system)?,
        };
        let word = read_word(&device)?;
        self.device = Some(device);
        if self.last.replace(word) == Some(word) {
            return Err(ErrorKind::InvalidData.into());
        }
        Ok(word)
    }
}

// The device is looked at before it is opened, so that nothing else is waited for.
fn open_device<R: Files<File = File>>(system: &R) -> io::Result<File> {
    if !fs::metadata(system, DEVICE)?.file_type().is_char_device() {
        return Err(ErrorKind::InvalidInput.into());
    }
    beside_streams(File::open(system, DEVICE)?)
}

// Reads 16 bytes of the device; fewer are an error.
fn read_word(mut device: &File) -> io::Result<[u8; 16]> {
    let mut word = [0; 16];
    device.read_exact(&mut word)?;
    Ok(word)
}

impl<R: Files<File = File> + Drop> Words for DeviceWords<R> {
    ghost state = { device_words_of };

    fn next16(&mut self) -> Result<[u8; 16], WordsFault>
        ensures cause { HasCause self.old.faults self.new.faults result }
        ensures left { TakesWord result (device_words_of self.old).left (device_words_of self.new).left }
    {
        match self.draw() {
            Ok(word) => Ok(word),
            Err(_) => {
                raise(&mut self.faults);
                Err(WordsFault)
            }
        }
    }
}
