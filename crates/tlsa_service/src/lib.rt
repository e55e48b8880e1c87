// The parts of a TLS service (RFC 6698 section 3): whether host, port and transport keep their rules.
#![tactic(auto)]

ghost use Rattle.std.specs.Prelude.{◌≡◌};
ghost use Rattle.spec_record.specs.Records.{is_some};
ghost use Rattle.spec_tlsa.specs.Owners.{is_port, is_transport, host_name};
ghost use Rattle.tlsa_service.specs.Rules.{keeps_rules};

// Whether the octets are exactly one requested name without an asterisk.
pub fn is_host(host: &[u8]) -> bool
    ensures { result ≡ is_some (host_name host.now) }
{
    match read_request::requested_name(host, 0) {
        Some(n) => !n.wildcard && n.next == host.len(),
        None => false,
    }
}

// Whether the text is a number from 0 to 65,535 in decimal, without leading zeros.
pub fn is_port(port: &[u8]) -> bool
    ensures { result ≡ is_port port.now }
{
    if port.len() == 0 || 5 < port.len() {
        return false;
    }
    if port[0] == b'0' {
        return port.len() == 1;
    }
    let mut n: usize = 0;
    for b in port {
        if !text_ascii::is_digit(*b) {
            return false;
        }
        n = n * 10 + usize::from(*b - b'0');
        if 65535 < n {
            return false;
        }
    }
    true
}

// Whether the text is tcp, udp or sctp, in lower case.
pub fn is_transport(transport: &[u8]) -> bool
    ensures { result ≡ is_transport transport.now }
{
    text_equal::is_same(transport, b"tcp")
        || text_equal::is_same(transport, b"udp")
        || text_equal::is_same(transport, b"sctp")
}

// Whether all three keep their rules.
pub fn is_service(host: &[u8], port: &[u8], transport: &[u8]) -> bool
    ensures { result ≡ keeps_rules host.now port.now transport.now }
{
    is_host(host) && is_port(port) && is_transport(transport)
}
