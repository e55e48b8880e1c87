// Tests on CAA data: whether it is critical with an unknown tag, whether it has a tag, and whether it grants an issuer to an applicant. Malformed data passes
// none of them.
#![tactic(auto)]

ghost use Rattle.std.specs.Prelude.{◌≡◌};
ghost use Rattle.book_places.specs.Sets.{data_is_unknown_critical, data_has_tag, data_grants};
ghost use Rattle.spec_applicant.specs.Applicants.{texts};

use spec_applicant::Applicant;
use spec_record::PropertyTag;

// Whether CAA data has an unknown tag and is critical.
pub fn is_unknown_critical(d: &[u8]) -> bool
    ensures { result ≡ data_is_unknown_critical d.now }
{
    let Some(p) = read_property::read_property(d) else {
        return false;
    };
    128 <= p.flags && read_property::tag_of(read_property::tag_part(d)) == PropertyTag::Unknown
}

// Whether CAA data has this tag.
pub fn has_tag(d: &[u8], tag: PropertyTag) -> bool
    ensures { result ≡ data_has_tag tag d.now }
{
    let Some(_) = read_property::read_property(d) else {
        return false;
    };
    let found = read_property::tag_of(read_property::tag_part(d));
    found == tag
}

// Whether CAA data grants this issuer to the applicant. Limits are read only if the data names this issuer.
pub fn grants(d: &[u8], issuer: &[u8], applicant: Applicant) -> bool
    ensures { result ≡ data_grants (texts applicant.entry) issuer.now d.now }
{
    let Some(n) = read_grantee::issuer_in(d) else {
        return false;
    };
    let name = &d[n.from..n.to];
    text_compare::same_ignoring_case(name, issuer)
        && read_limits::limits_met(&d[n.parameters..], applicant)
}
