//! Captures, built byte by byte from pcap-savefile(5), IEEE 802.3, RFC 791, RFC 768 and RFC 9293.

use std::alloc::{AllocError, Global};

/// The head of a little-endian file with microseconds: version 2.4, snapshot length 65,535, Ethernet.
pub(super) const HEAD: [u8; 24] = [
    0xd4, 0xc3, 0xb2, 0xa1, 2, 0, 4, 0, 0, 0, 0, 0, 0, 0, 0, 0, 0xff, 0xff, 0, 0, 1, 0, 0, 0,
];

// Flags of RFC 9293, section 3.1.
const SYN: u8 = 0x02;

const ACK: u8 = 0x10;

const SYN_ACK: u8 = 0x12;

const FIN_ACK: u8 = 0x11;

/// An IPv4 address and a port.
pub(super) type Endpoint = ([u8; 4], u16);

/// A piece of a little-endian file.
#[derive(Clone, Copy)]
pub(super) enum Part {
    /// Bytes that stand as they are.
    Bytes(&'static [u8]),
    /// A whole record of this frame.
    Frame(&'static [u8]),
    /// A whole record of a SYN from 10.0.0.1, with this port, to 10.0.0.2, port 80.
    Syn(u16),
    /// The same with an ACK, and with a FIN and an ACK.
    Ack(u16),
    Fin(u16),
    /// A whole record of a TCP segment from one endpoint to another, with these flags and data.
    Tcp(Endpoint, Endpoint, u8, &'static [u8]),
    /// A whole record of an empty UDP datagram from one endpoint to another.
    Udp(Endpoint, Endpoint),
}

const RESOLVER: Endpoint = ([192, 168, 1, 10], 53211);

const NAMES: Endpoint = ([192, 168, 1, 1], 53);

const BROWSER: Endpoint = ([192, 168, 1, 10], 50412);

const WEB: Endpoint = ([93, 184, 216, 34], 443);

/// The bytes by which the page is asked for.
const PAGE_WANTED: [u8; 100] = [b'x'; 100];

/// A name is looked up, and a page is fetched.
pub(super) const DNS_AND_WEB: [Part; 10] = [
    Part::Bytes(&HEAD),
    Part::Udp(RESOLVER, NAMES),
    Part::Udp(NAMES, RESOLVER),
    Part::Tcp(BROWSER, WEB, SYN, &[]),
    Part::Tcp(WEB, BROWSER, SYN_ACK, &[]),
    Part::Tcp(BROWSER, WEB, ACK, &[]),
    Part::Tcp(BROWSER, WEB, ACK, &PAGE_WANTED),
    Part::Tcp(BROWSER, WEB, FIN_ACK, &[]),
    Part::Tcp(WEB, BROWSER, FIN_ACK, &[]),
    Part::Tcp(BROWSER, WEB, ACK, &[]),
];

/// The file of these parts.
pub(super) fn file_of(alloc: Global, parts: &[Part]) -> Result<Vec<u8>, AllocError> {
    let mut file = Vec::new(alloc);
    for part in parts {
        put_part(&mut file, part)?;
    }
    Ok(file)
}

fn put_part(file: &mut Vec<u8>, part: &Part) -> Result<(), AllocError> {
    match part {
        Part::Bytes(bytes) => file.extend_from_slice(bytes),
        Part::Frame(frame) => {
            put_record_head(file, (frame.len() & 0xffff) as u16)?;
            file.extend_from_slice(frame)
        }
        Part::Syn(port) => put_tcp(file, ([10, 0, 0, 1], *port), ([10, 0, 0, 2], 80), SYN, &[]),
        Part::Ack(port) => put_tcp(file, ([10, 0, 0, 1], *port), ([10, 0, 0, 2], 80), ACK, &[]),
        Part::Fin(port) => put_tcp(
            file,
            ([10, 0, 0, 1], *port),
            ([10, 0, 0, 2], 80),
            FIN_ACK,
            &[],
        ),
        Part::Tcp(source, target, flags, data) => put_tcp(file, *source, *target, *flags, data),
        Part::Udp(source, target) => put_udp(file, *source, *target),
    }
}

/// The head of a record that was captured whole, at second 1.
fn put_record_head(file: &mut Vec<u8>, length: u16) -> Result<(), AllocError> {
    let digits = u32::from(length).to_le_bytes();
    file.extend_from_slice(&[1, 0, 0, 0, 0, 0, 0, 0])?;
    file.extend_from_slice(&digits)?;
    file.extend_from_slice(&digits)
}

/// A record up to the end of the IPv4 head, for a payload of so many bytes and this protocol.
fn put_heads(
    file: &mut Vec<u8>,
    payload: u8,
    protocol: u8,
    source: [u8; 4],
    target: [u8; 4],
) -> Result<(), AllocError> {
    put_record_head(file, 34 + u16::from(payload))?;
    file.extend_from_slice(&[2, 0, 0, 0, 0, 2, 2, 0, 0, 0, 0, 1, 0x08, 0x00])?;
    let [high, low] = (20 + u16::from(payload)).to_be_bytes();
    file.extend_from_slice(&[0x45, 0, high, low, 0, 0, 0, 0, 64, protocol, 0, 0])?;
    file.extend_from_slice(&source)?;
    file.extend_from_slice(&target)
}

fn put_ports(file: &mut Vec<u8>, source: u16, target: u16) -> Result<(), AllocError> {
    file.extend_from_slice(&source.to_be_bytes())?;
    file.extend_from_slice(&target.to_be_bytes())
}

fn put_tcp(
    file: &mut Vec<u8>,
    source: Endpoint,
    target: Endpoint,
    flags: u8,
    data: &[u8],
) -> Result<(), AllocError> {
    let payload = 20 + (data.len() & 0x7f) as u8;
    put_heads(file, payload, 6, source.0, target.0)?;
    put_ports(file, source.1, target.1)?;
    file.extend_from_slice(&[0; 8])?;
    file.extend_from_slice(&[0x50, flags, 0x20, 0, 0, 0, 0, 0])?;
    file.extend_from_slice(data)
}

fn put_udp(file: &mut Vec<u8>, source: Endpoint, target: Endpoint) -> Result<(), AllocError> {
    put_heads(file, 8, 17, source.0, target.0)?;
    put_ports(file, source.1, target.1)?;
    file.extend_from_slice(&[0, 8, 0, 0])
}
