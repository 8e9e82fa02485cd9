//! The options of an IPv4 header in its later fragments (RFC 791, section 3.1).

ghost use Rattle.std.specs.Prelude.{◌≡◌, ◌≤◌, ◌<◌, IfSome, length};
ghost use Rattle.app_fragment.specs.Ipv4Options.{later_option, later_options, option_len};

// The types of the options of one byte: end of the options, and no operation.
const END: u8 = 0;

const NOP: u8 = 1;

// The highest bit of a type, the copied flag: all fragments have the option.
const COPIED: u8 = 0x80;

// Replaces each option without the copied flag by NOPs. Bytes after the last option stay.
pub fn replace_options(options: &mut [u8])
    ensures { options.new ≡ later_options options.old }
{
    let mut at = 0;
    while let Some(len) = option_len(&options[at..]) {
        replace_option(&mut options[at..at + len]);
        at += len;
    }
}

// The length of the first option, if there is one.
fn option_len(options: &[u8]) -> Option<usize>
    ensures value { result ≡ option_len options.now }
    ensures some { IfSome result (λ len. 0 < len) }
    ensures within { IfSome result (λ len. len ≤ length options.now) }
{
    if options.is_empty() || options[0] == END {
        return None;
    }
    if options[0] == NOP {
        return Some(1);
    }
    if options.len() < 2 {
        return None;
    }
    let len = usize::from(options[1]);
    if len < 2 || options.len() < len {
        return None;
    }
    Some(len)
}

fn replace_option(option: &mut [u8])
    requires { 0 < length option.old }
    ensures { option.new ≡ later_option option.old }
{
    if option[0] < COPIED {
        option.fill(NOP);
    }
}
