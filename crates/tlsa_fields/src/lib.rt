// The fields of TLSA data (RFC 6698 section 2.1) and their known values. A field of any other value makes its record unusable.
#![tactic(auto)]

ghost use Rattle.std.specs.Prelude.{◌≡◌};
ghost use Rattle.tlsa_fields.specs.Fields.{usage_of, selector_of, matching_type_of};

// RFC 6698 section 2.1.1: how the certificate association is to be used.
#[derive(Clone, Copy, PartialEq, Eq)]
pub struct Usage(pub u8);

impl Usage {
    pub const CA_CONSTRAINT: Usage = Usage(0);

    pub const SERVICE_CERTIFICATE_CONSTRAINT: Usage = Usage(1);

    pub const TRUST_ANCHOR_ASSERTION: Usage = Usage(2);

    pub const DOMAIN_ISSUED_CERTIFICATE: Usage = Usage(3);

    #[tactic(auto, unfolding(crate::specs::Fields::usage_of, spec_tlsa::specs::Association::is_usage))]
    pub fn from_octet(x: u8) -> Option<Usage>
        ensures { result ≡ usage_of x }
    {
        match Usage(x) {
            known @ (Usage::CA_CONSTRAINT
            | Usage::SERVICE_CERTIFICATE_CONSTRAINT
            | Usage::TRUST_ANCHOR_ASSERTION
            | Usage::DOMAIN_ISSUED_CERTIFICATE) => Some(known),
            _ => None,
        }
    }
}

// RFC 6698 section 2.1.2: which part of the certificate is matched.
#[derive(Clone, Copy, PartialEq, Eq)]
pub struct Selector(pub u8);

impl Selector {
    pub const FULL_CERTIFICATE: Selector = Selector(0);

    pub const PUBLIC_KEY: Selector = Selector(1);

    #[tactic(auto, unfolding(crate::specs::Fields::selector_of, spec_tlsa::specs::Association::is_selector))]
    pub fn from_octet(x: u8) -> Option<Selector>
        ensures { result ≡ selector_of x }
    {
        match Selector(x) {
            known @ (Selector::FULL_CERTIFICATE | Selector::PUBLIC_KEY) => Some(known),
            _ => None,
        }
    }
}

// RFC 6698 section 2.1.3: how the association data is presented.
#[derive(Clone, Copy, PartialEq, Eq)]
pub struct MatchingType(pub u8);

impl MatchingType {
    pub const NO_HASH: MatchingType = MatchingType(0);

    #[tactic(auto, unfolding(crate::specs::Fields::matching_type_of, spec_tlsa::specs::Association::is_matching_type))]
    pub fn from_octet(x: u8) -> Option<MatchingType>
        ensures { result ≡ matching_type_of x }
    {
        match MatchingType(x) {
            known @ (MatchingType::NO_HASH) => Some(known),
            _ => None,
        }
    }
}
