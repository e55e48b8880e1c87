// The issuer that CAA data grants, as offsets into the data.
#![tactic(auto)]

ghost use Rattle.std.specs.Prelude.{◌≡◌};
ghost use Rattle.read_grantee.specs.Places.{issuer_at, grantee_at};
ghost use Rattle.spec_applicant.specs.Applicants.{texts};

use read_value::{NameAt, ValueRead};
use spec_applicant::Applicant;

// The issuer that CAA data names: the offsets of the name in the data, and of the parameters after it, whatever its parameters say. A value that doesn't match the grammar, has no name, or has one over the
// limits of issuer domain names names nobody.
pub fn issuer_in(d: &[u8]) -> Option<NameAt>
    ensures { result ≡ issuer_at d.now }
{
    let v = read_property::value_part(d);
    let ValueRead::Named(n) = read_value::read_value(v) else {
        return None;
    };
    if !read_issuer::is_issuer(&v[n.from..n.to]) {
        return None;
    }
    // The value is a suffix of the data.
    let start = d.len() - v.len();
    Some(NameAt {
        from: start + n.from,
        to: start + n.to,
        parameters: start + n.parameters,
    })
}

// The issuer that CAA data grants to an applicant: the one that it names, if its parameters admit this account and this method.
pub fn read_grantee(d: &[u8], applicant: Applicant) -> Option<NameAt>
    ensures { result ≡ grantee_at (texts applicant.entry) d.now }
{
    let n = issuer_in(d)?;
    if !read_limits::limits_met(&d[n.parameters..], applicant) {
        return None; // a grant for another account or method
    }
    Some(n)
}
