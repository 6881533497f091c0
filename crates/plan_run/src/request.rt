//! What the command line asks for.
use crate::workers::Workers;
use lit_base::Profile;
use plan_pack::{PatternFiles, Reading};

/// What the command line asks for.
#[derive(Debug, Drop)]
pub enum Request {
    /// Plan the patterns of a file.
    Plan(PlanRequest),
    /// Check a certificate against the patterns of a file.
    Check(CheckRequest),
    /// Check a plan of a plan file once more.
    CheckPlan {
        /// The plan file; `-` is standard input.
        file: String,
        /// The number of the plan, from 0.
        place: usize,
    },
    /// Write the plans of the patterns of files to a plan file, in order.
    Pack(PackRequest),
    /// Explain the plan of the patterns of a file.
    Explain(ExplainRequest),
    /// Explain a plan of a plan file.
    ExplainPlan {
        /// How the plan is shown.
        view: View,
        /// The plan file; `-` is standard input.
        file: String,
        /// The number of the plan, from 0.
        place: usize,
    },
    /// Report which line of a certificate is wrong, or what it says.
    ExplainCertificate {
        /// The file of the certificate.
        certificate: String,
    },
    /// Plan the lists of a plan file anew, with sixteen buckets, and write these plans to another.
    Migrate {
        /// The plan file that is read; `-` is standard input.
        input: String,
        /// The plan file that is made or emptied.
        output: String,
    },
    /// Find the patterns of a file in an input, by a plan of eight buckets.
    Scan(ScanRequest),
}

/// How a plan is shown.
#[derive(Clone, Copy, Debug, PartialEq, Eq)]
pub enum View {
    /// By a text.
    Text,
    /// By a drawing, as an SVG file.
    Drawing,
}

/// What is written of the hits of a scan.
#[derive(Clone, Copy, Debug, PartialEq, Eq)]
pub enum Listing {
    /// How many they are.
    Count,
    /// A line for each.
    Lines(HitLine),
}

/// The line of a hit.
#[derive(Clone, Copy, Debug, PartialEq, Eq)]
pub enum HitLine {
    /// The literal's number, and where it ends.
    End,
    /// The literal's number, where it starts, and the literal.
    Literal,
}

/// The patterns to plan.
#[derive(Debug, Drop)]
pub struct PlanRequest {
    /// How the file of patterns is read.
    pub reading: Reading,
    /// How many buckets the plan may have.
    pub profile: Profile,
    /// The file of patterns; `-` is standard input.
    pub file: String,
}

/// The certificate to check, and its patterns.
#[derive(Debug, Drop)]
pub struct CheckRequest {
    /// How the file of patterns is read.
    pub reading: Reading,
    /// The file of patterns; `-` is standard input.
    pub file: String,
    /// The file of the certificate.
    pub certificate: String,
}

/// The patterns to plan for a plan file.
#[derive(Debug, Drop)]
pub struct PackRequest {
    /// How each file of patterns is read.
    pub reading: Reading,
    /// How many buckets each plan may have.
    pub profile: Profile,
    /// The files of patterns; `-` is standard input.
    pub files: PatternFiles,
    /// The plan file, which is made or emptied.
    pub output: String,
}

/// The patterns to explain a plan of.
#[derive(Debug, Drop)]
pub struct ExplainRequest {
    /// How the file of patterns is read.
    pub reading: Reading,
    /// How many buckets the plan may have.
    pub profile: Profile,
    /// How the plan is shown.
    pub view: View,
    /// The file of patterns; `-` is standard input.
    pub file: String,
}

/// The patterns of a search, and its input.
#[derive(Debug, Drop)]
pub struct ScanRequest {
    /// How the file of patterns is read.
    pub reading: Reading,
    /// How many workers share the input.
    pub workers: Workers,
    /// What is written of the hits.
    pub listing: Listing,
    /// The file of patterns; `-` is standard input.
    pub file: String,
    /// The input of the search; `-` is standard input.
    pub input: String,
}
