//! Versions of the Internet Protocol.

use net_base::Error;
use wire_addr::IpVersion;

/// Packets, and their versions.
const VERSIONS: &[(&[u8], Result<IpVersion, Error>)] = &[
    (&[0x45, 0x00], Ok(IpVersion::Ipv4)),
    (&[0x4f], Ok(IpVersion::Ipv4)),
    (&[0x60, 0x00], Ok(IpVersion::Ipv6)),
    (&[0x64], Ok(IpVersion::Ipv6)),
    (&[0x54], Err(Error)),
    (&[0x06], Err(Error)),
    (&[0xc4], Err(Error)),
    (&[0xff], Err(Error)),
    (&[], Err(Error)),
];

#[test]
fn a_packet_has_a_version_in_its_first_four_bits(rt: HostRuntime) {
    for (packet, version) in VERSIONS {
        assert!(rt; IpVersion::of_packet(packet) == *version, "{packet:?}");
    }
}
