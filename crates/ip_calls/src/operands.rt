//! Operands of calls, parsed from words.

ghost use Rattle.std.specs.Prelude.{◌≡◌};
ghost use Rattle.ip_wire.specs.IpAddress.{version_of};

use hex_digits::Digits;
use ip_wire::{
    Checksum, ChecksumCapabilities, EthernetAddress, IpAddress, Ipv4Address, Ipv6Address,
    TcpSeqNumber,
};
use std::alloc::{AllocError, Global};
use std::str::FromStr;

/// The word for no value.
pub const NOTHING: &str = "-";

/// The words of a line that are not parsed yet. A word that is missing or does not parse makes the
/// line malformed, and is read as a default value. So only `is_whole` has to be tested, at the end.
#[derive(Drop)]
pub struct Operands<'a> {
    words: &'a [&'a str],
    digits: &'a Digits,
    malformed: bool,
}

impl<'a> Operands<'a> {
    /// The operands of a line of these words.
    pub fn new(words: &'a [&'a str], digits: &'a Digits) -> Self {
        Operands {
            words,
            digits,
            malformed: false,
        }
    }

    /// Whether all words were read, and each was one that the call takes.
    pub fn is_whole(&self) -> bool {
        self.words.is_empty() && !self.malformed
    }

    /// Makes the line malformed.
    pub fn reject(&mut self) {
        self.malformed = true;
    }

    /// The next word.
    pub fn word(&mut self) -> &'a str {
        match self.words {
            [word, rest @ ..] => {
                self.words = rest;
                word
            }
            [] => {
                self.reject();
                ""
            }
        }
    }

    /// The last word.
    pub fn last(&mut self) -> &'a str {
        match self.words {
            [rest @ .., word] => {
                self.words = rest;
                word
            }
            [] => {
                self.reject();
                ""
            }
        }
    }

    /// A number.
    pub fn number<T: FromStr + Default + Copy>(&mut self) -> T
    where
        T::Err: Drop,
    {
        self.value(T::default())
    }

    /// An address or a block.
    pub fn value<T: FromStr + Copy>(&mut self, default: T) -> T
    where
        T::Err: Drop,
    {
        let word = self.word();
        self.parsed(word, default)
    }

    // A word that was read.
    fn parsed<T: FromStr + Copy>(&mut self, word: &str, default: T) -> T
    where
        T::Err: Drop,
    {
        let value = word.parse().ok();
        self.malformed |= value.is_none();
        value.unwrap_or(default)
    }

    /// A number, and `None` for `-`.
    pub fn maybe<T: FromStr + Default + Copy>(&mut self) -> Option<T>
    where
        T::Err: Drop,
    {
        if self.skips_nothing() {
            None
        } else {
            Some(self.number())
        }
    }

    // Whether the next word is `-`, which is then read.
    fn skips_nothing(&mut self) -> bool {
        match self.words {
            [word, rest @ ..] if *word == NOTHING => {
                self.words = rest;
                true
            }
            _ => false,
        }
    }

    /// Two numbers joined by a comma, and `None` for `-`.
    pub fn pair(&mut self) -> Option<(u32, u32)> {
        if self.skips_nothing() {
            return None;
        }
        let (first, second) = self.word().split_once(',').unwrap_or(("", ""));
        Some((self.parsed(first, 0), self.parsed(second, 0)))
    }

    /// Numbers joined by commas, and no numbers for `-`.
    pub fn numbers(&mut self, alloc: Global) -> Result<Vec<u16>, AllocError> {
        let mut numbers = Vec::new(alloc);
        if self.skips_nothing() {
            return Ok(numbers);
        }
        for word in self.word().split(',') {
            numbers.push(self.parsed(word, 0))?;
        }
        Ok(numbers)
    }

    /// A sequence number, as its bits.
    pub fn seq_number(&mut self) -> TcpSeqNumber {
        seq_number_of(self.number())
    }

    /// An Ethernet address.
    pub fn ethernet(&mut self) -> EthernetAddress {
        self.value(EthernetAddress::default())
    }

    /// An IPv4 address.
    pub fn ipv4(&mut self) -> Ipv4Address {
        self.value(Ipv4Address::UNSPECIFIED)
    }

    /// An IPv6 address.
    pub fn ipv6(&mut self) -> Ipv6Address {
        self.value(Ipv6Address::UNSPECIFIED)
    }

    /// An address of either version.
    pub fn address(&mut self) -> IpAddress {
        self.value(IpAddress::Ipv4(Ipv4Address::UNSPECIFIED))
    }

    /// Two addresses of one version.
    pub fn addresses(&mut self) -> (IpAddress, IpAddress)
        ensures { version_of result.0 ≡ version_of result.1 }
    {
        let (src, dst) = (self.address(), self.address());
        if src.version() == dst.version() {
            (src, dst)
        } else {
            self.reject();
            (src, src)
        }
    }

    /// Bytes of hex digits, and no bytes for `-`.
    pub fn octets(&mut self, alloc: Global) -> Result<Vec<u8>, AllocError> {
        let word = self.word();
        self.bytes_of(alloc, word)
    }

    /// The bytes of a word that was read.
    pub fn bytes_of(&mut self, alloc: Global, word: &str) -> Result<Vec<u8>, AllocError> {
        if word == NOTHING {
            return Ok(Vec::new(alloc));
        }
        let mut octets = vec![in alloc; 0; word.len() / 2]?;
        if self
            .digits
            .decode(word.as_bytes(), octets.as_mut_slice())
            .is_err()
        {
            self.reject();
            octets.clear();
        }
        Ok(octets)
    }

    /// Whether the word is `1`.
    pub fn flag(&mut self) -> bool {
        self.word() == "1"
    }

    /// Which checksums are computed: all for `1`, else none.
    pub fn computed(&mut self) -> ChecksumCapabilities {
        let checksum = if self.flag() {
            Checksum::Both
        } else {
            Checksum::Rx
        };
        ChecksumCapabilities {
            ipv4: checksum,
            udp: checksum,
            tcp: checksum,
            icmpv4: checksum,
            icmpv6: checksum,
        }
    }

    /// The choices of five letters, for IPv4, UDP, TCP, ICMPv4 and ICMPv6.
    pub fn capabilities(&mut self) -> ChecksumCapabilities {
        let word = self.word();
        let [ipv4, udp, tcp, icmpv4, icmpv6] = word.as_bytes() else {
            self.reject();
            return ChecksumCapabilities::default();
        };
        ChecksumCapabilities {
            ipv4: self.choice(*ipv4),
            udp: self.choice(*udp),
            tcp: self.choice(*tcp),
            icmpv4: self.choice(*icmpv4),
            icmpv6: self.choice(*icmpv6),
        }
    }

    // The choice of this letter.
    fn choice(&mut self, letter: u8) -> Checksum {
        match letter {
            b'n' => Checksum::None,
            b'r' => Checksum::Rx,
            b't' => Checksum::Tx,
            b'b' => Checksum::Both,
            _ => {
                self.reject();
                Checksum::None
            }
        }
    }
}

/// The sequence number of these bits.
pub fn seq_number_of(bits: u32) -> TcpSeqNumber {
    TcpSeqNumber(bits.cast_signed())
}
