//! A number by which plans can be compared.
use lit_plan::Compiled;

/// The digest of no number.
const START: u64 = 0xCBF2_9CE4_8422_2325;

/// What the digest is multiplied by with each number.
const PRIME: u64 = 0x0100_0000_01B3;

/// The digest with one more number.
fn with(digest: u64, number: u64) -> u64 {
    (digest ^ number).wrapping_mul(PRIME)
}

/// The digest of some bytes.
pub fn digest_of_bytes(bytes: &[u8]) -> u64 {
    bytes
        .iter()
        .fold(START, |digest, byte| with(digest, u64::from(*byte)))
}

/// The digest of the plan's numbers: for each literal its length and its bytes, the ends, the potentials.
pub fn digest_of(plan: &Compiled) -> u64 {
    let mut digest = START;
    for place in 0..plan.list().len() {
        let literal = plan.list().get(place);
        digest = with(digest, literal.len() as u64);
        for byte in literal {
            digest = with(digest, u64::from(*byte));
        }
    }
    for end in &plan.certificate().ends {
        digest = with(digest, u64::from(*end));
    }
    for potential in &plan.certificate().potentials {
        digest = with(digest, *potential);
    }
    digest
}
