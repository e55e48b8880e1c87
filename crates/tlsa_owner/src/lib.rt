// Writes the owner of the TLSA records of a service (RFC 6698 section 3): _443._tcp. and the host, in wire form.
#![tactic(auto)]

ghost use Rattle.std.specs.Prelude.{◌≡◌, ◌≤◌, length};
ghost use Rattle.spec_limits.specs.Limits.{max_name_octets};
ghost use Rattle.spec_octets.specs.Buffer.{Put};
ghost use Rattle.spec_tlsa.specs.Calls.{write_owner};
ghost use Rattle.tlsa_owner.specs.Places.{label_octets, prefix_octets, owner_octets, service};

use spec_limits::MAX_NAME_OCTETS;
use spec_refusal::{NameNo, Refusal};

// Writes a label of an underscore and the text, after its length octet.
fn put_underscored(text: &[u8], out: &mut [u8]) -> usize
    requires text_len_bound { length (label_octets text.now) ≤ max_name_octets }
    requires text_in_bounds { length (label_octets text.now) ≤ length out.old }
    ensures { Put (label_octets text.now) out.old out.new result }
{
    out[0] = (text.len() + 1) as u8;
    out[1] = b'_';
    2 + text_buffer::put_octets(text, &mut out[2..])
}

// Writes the two labels in front of the host.
fn put_prefix(port: &[u8], transport: &[u8], out: &mut [u8]) -> usize
    requires transport_len_bound { length (prefix_octets port.now transport.now) ≤ max_name_octets }
    requires transport_in_bounds { length (prefix_octets port.now transport.now) ≤ length out.old }
    ensures { Put (prefix_octets port.now transport.now) out.old out.new result }
{
    let w = put_underscored(port, out);
    w + put_underscored(transport, &mut out[w..])
}

// Writes the owner.
fn put_owner(port: &[u8], transport: &[u8], host: &[u8], out: &mut [u8]) -> usize
    requires host_len_bound { length (owner_octets port.now transport.now host.now) ≤ max_name_octets }
    requires host_in_bounds { length (owner_octets port.now transport.now host.now) ≤ length out.old }
    ensures { Put (owner_octets port.now transport.now host.now) out.old out.new result }
{
    let w = put_prefix(port, transport, out);
    w + text_buffer::put_octets(host, &mut out[w..])
}

// Writes the owner of a service at the start of the buffer. Nothing is written unless the service keeps its rules and the buffer is long enough.
pub fn write_owner(
    host: &[u8],
    port: &[u8],
    transport: &[u8],
    buffer: &mut [u8],
) -> Result<usize, Refusal>
    ensures answer { result ≡ (write_owner (service host.now port.now transport.now) buffer.old).answer }
    ensures octets { buffer.new ≡ (write_owner (service host.now port.now transport.now) buffer.old).buffer }
{
    if !tlsa_service::is_service(host, port, transport) {
        return Err(Refusal::BadName(NameNo(0)));
    }
    let n = port.len() + transport.len() + host.len() + 4;
    if MAX_NAME_OCTETS < n {
        return Err(Refusal::BadName(NameNo(0)));
    }
    if buffer.len() < n {
        return Err(Refusal::NoRoom(n));
    }
    put_owner(port, transport, host, buffer);
    Ok(n)
}
