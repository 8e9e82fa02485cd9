//! Segments that come and go (RFC 9293, section 3.1).

ghost use Rattle.std.specs.Prelude.{◌≡◌, ◌<◌, length, None, true, false};
ghost use Rattle.app_connection.specs.Endpoints.{len_of, refused};

/// A segment. Its window is that after scaling.
#[derive(Debug, Clone, Copy)]
pub struct Segment<'a> {
    /// SEG.SEQ
    pub number: u32,
    /// SEG.ACK, if it has the flag ACK.
    pub ack: Option<u32>,
    /// SEG.WND
    pub window: u32,
    pub syn: bool,
    pub rst: bool,
    pub fin: bool,
    /// Its text, without options.
    pub payload: &'a [u8],
}

/// A segment without text that answers another one.
#[derive(Debug, Clone, Copy, PartialEq, Eq)]
pub struct Reply {
    /// SEG.SEQ
    pub number: u32,
    /// SEG.ACK, if it has the flag ACK.
    pub ack: Option<u32>,
    pub syn: bool,
    pub rst: bool,
}

impl Segment<'_> {
    /// How many sequence numbers it takes (SEG.LEN): its bytes, a SYN and a FIN.
    pub fn len(&self) -> u32
        requires { length self.now.payload.now < 65536 }
        ensures { result ≡ len_of self.now }
    {
        self.payload.len() as u32 + u32::from(self.syn) + u32::from(self.fin)
    }
}

impl Reply {
    /// The RST at the number that a segment acknowledged.
    pub(crate) fn reset(number: u32) -> Reply
        ensures { result ≡ record { number = number; ack = None; syn = false; rst = true } }
    {
        Reply {
            number,
            ack: None,
            syn: false,
            rst: true,
        }
    }
}

/// The answer of an endpoint that has no connection (section 3.10.7.1).
pub(crate) fn refusal(segment: &Segment) -> Option<Reply>
    requires { length segment.now.payload.now < 65536 }
    ensures { result ≡ refused segment.now }
{
    if segment.rst {
        return None;
    }
    if let Some(ack) = segment.ack {
        return Some(Reply::reset(ack));
    }
    Some(Reply {
        number: 0,
        ack: Some(segment.number.wrapping_add(segment.len())),
        syn: false,
        rst: true,
    })
}
