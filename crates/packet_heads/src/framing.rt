//! How captured bytes are framed: their link type, and what may stand before the packet and in it.
//!
//! Source: the registry of link types, https://www.tcpdump.org/linktypes.html, each by its name there.

ghost use Rattle.packet_heads.specs.Links.{number_in};
ghost use Rattle.packet_heads.specs.declared.framing.Link.{Link as ALink};
ghost use Rattle.std.specs.Prelude.{◌≡◌, IfSome, IsSome};

/// A link type whose head is read.
#[derive(Clone, Copy, PartialEq, Eq)]
pub enum Link {
    /// LINKTYPE_NULL, 0: loopback of BSD and macOS.
    Null,
    /// LINKTYPE_ETHERNET, 1.
    Ethernet,
    /// LINKTYPE_PPP, 9.
    Ppp,
    /// LINKTYPE_RAW as most systems write it, 12.
    Raw12,
    /// LINKTYPE_RAW as OpenBSD writes it, 14.
    Raw14,
    /// LINKTYPE_RAW, 101: a packet of IPv4 or IPv6 without a head before it.
    Raw,
    /// LINKTYPE_LOOP, 108: loopback of OpenBSD.
    Loop,
    /// LINKTYPE_LINUX_SLL, 113: what `tcpdump -i any` writes, version 1.
    LinuxSll,
    /// LINKTYPE_IPV4, 228.
    Ipv4,
    /// LINKTYPE_IPV6, 229.
    Ipv6,
    /// LINKTYPE_LINUX_SLL2, 276: what `tcpdump -i any` writes, version 2.
    LinuxSll2,
}

impl Link {
    /// Its number in a capture.
    pub fn number(self) -> u16
        ensures { result ≡ number_in self }
    {
        match self {
            Link::Null => 0,
            Link::Ethernet => 1,
            Link::Ppp => 9,
            Link::Raw12 => 12,
            Link::Raw14 => 14,
            Link::Raw => 101,
            Link::Loop => 108,
            Link::LinuxSll => 113,
            Link::Ipv4 => 228,
            Link::Ipv6 => 229,
            Link::LinuxSll2 => 276,
        }
    }

    /// The link type with this number, if its head is read.
    pub fn with_number(number: u16) -> Option<Link>
        ensures found { IfSome result (λ link. number_in link ≡ number) }
        ensures none { (link : ALink) → number_in link ≡ number → IsSome result }
    {
        match number {
            0 => Some(Link::Null),
            1 => Some(Link::Ethernet),
            9 => Some(Link::Ppp),
            12 => Some(Link::Raw12),
            14 => Some(Link::Raw14),
            101 => Some(Link::Raw),
            108 => Some(Link::Loop),
            113 => Some(Link::LinuxSll),
            228 => Some(Link::Ipv4),
            229 => Some(Link::Ipv6),
            276 => Some(Link::LinuxSll2),
            _ => None,
        }
    }
}

/// The link type of a capture, and what is looked through.
#[derive(Clone, Copy, PartialEq, Eq)]
pub struct Framing {
    pub link: Link,
    /// How many tags of 0x8100, 0x88a8 or 0x9100 may stand before the protocol; `None` for one of 0x8100 at most.
    pub tags: Option<u8>,
    /// How many extension heads of IPv6 may stand before the transport head.
    pub extensions: u8,
}

/// The version of the Internet Protocol, as a link head tells it.
#[derive(Clone, Copy, PartialEq, Eq)]
pub enum Network {
    Ipv4,
    Ipv6,
}

/// A packet that captured bytes carry.
#[derive(Clone, Copy)]
pub struct Carried<'a> {
    pub network: Network,
    pub packet: &'a [u8],
}
