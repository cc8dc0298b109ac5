//! The text of a certificate: its rows, in any order.
ghost use Rattle.std.specs.Prelude.{◌≡◌, ℕ, List, ◌≤◌, ◌<◌, ◌*◌, ◌^◌, length, Ok};
ghost use Rattle.std.specs.List.{flat_map, AllByRecursion};
ghost use Rattle.rds_codec.specs.CertificateTexts.{
  IsHeldRow,
  RowFits,
  IsCertificateOf,
  row_text,
  certificate_text,
  certificate_row_at,
  certificate_at,
  certificate_kind,
};
ghost use Rattle.rds_codec.specs.Decoding.{Decodes, ReadsAll};
ghost use Rattle.rds_codec.specs.SteadyTexts.{row_steady};
ghost use Rattle.rds_codec.specs.Writing.{Encodes};
ghost use Rattle.rds_bytes.specs.Writing.{Adds};

use crate::certificate_rows::{put_row, read_certificate_row, row_length};
use crate::fed::read_whole;
use crate::limits::room_for;
use rds_bytes::{PartReader, put_u32};
use rds_delta::{Certificate, Row};
use rds_feeds::{CountWidth, Listed, Made, Making, Progress, RowReader, Rows, Unfinished, rows};
use rds_names::Fault;
use std::alloc::{AllocError, Global};

/// Reads the rows of a certificate of so many replicas. Nothing else is known of them.
#[derive(Drop)]
pub struct ClaimReader {
    replicas: u16,
}

impl PartReader<Row> for ClaimReader {
    ghost reader = { λ r before. certificate_row_at r.replicas };

    ghost steady = { λ r before. row_steady r.replicas };

    fn read<'a>(
        &self,
        alloc: Global,
        _before: &[Row],
        bytes: &'a [u8],
    ) -> Result<(Row, &'a [u8]), Fault> {
        read_certificate_row(alloc, self.replicas, bytes)
    }
}

impl RowReader<Row> for ClaimReader {
    ghost are_rows = { λ _ _. Unit {0} };

    ghost begins = { λ _. tt };

    ghost goes_on = { λ _ _ _ _ _. tt };
}

/// The certificate of rows.
#[derive(Drop)]
pub struct RowsAreCertificate {}

impl Making<Listed<ClaimReader, Row>> for RowsAreCertificate {
    type Made = Certificate;

    ghost made = { λ _ l. Ok l.1 };

    fn make(self, whole: Listed<ClaimReader, Row>) -> Result<Certificate, Fault> {
        let Listed { reader: _, rows } = whole;
        Ok(Certificate::new(rows))
    }
}

type CertificateParts = Made<Rows<ClaimReader, Row>, RowsAreCertificate>;

/// A certificate that is being read. No more than one row is held.
#[derive(Drop)]
pub struct UnfinishedCertificate {
    parts: CertificateParts,
}

impl Unfinished for UnfinishedCertificate {
    type Whole = Certificate;

    ghost finish = { λ u. ⟦<CertificateParts as Unfinished>⟧.finish u.parts };

    fn read_on<'a>(
        self,
        alloc: Global,
        bytes: &'a [u8],
    ) -> Result<(Progress<Self, Certificate>, &'a [u8]), Fault> {
        let (progress, rest) = self.parts.read_on(alloc, bytes)?;
        match progress {
            Progress::More(parts) => Ok((Progress::More(UnfinishedCertificate { parts }), rest)),
            Progress::Whole(certificate) => Ok((Progress::Whole(certificate), rest)),
        }
    }
}

/// A certificate of so many replicas, of which nothing was read.
pub fn unfinished_certificate(alloc: Global, replicas: u16) -> UnfinishedCertificate
    ensures { (bytes : List ℕ) → ⟦<UnfinishedCertificate as Unfinished>⟧.finish result bytes
        ≡ certificate_at replicas bytes }
{
    let from = rows(alloc, CountWidth::Four, ClaimReader { replicas });
    UnfinishedCertificate {
        parts: Made {
            from,
            maker: RowsAreCertificate {},
        },
    }
}

/// The certificate whose text the bytes are, of a roster of so many replicas. Neither the order of its rows is
/// judged, nor what they claim: that is what `check` does.
///
/// The bytes are read from the left, and each part is judged as soon as it is there. Refused are bytes above the
/// limit (`TooLong`, before anything is read); bytes that go on after a text (`Extra`); and other bytes that are no
/// text: `Cut` where they end inside a part, `Bad` where a part that is there is none.
pub fn decode_certificate(alloc: Global, replicas: u16, bytes: &[u8]) -> Result<Certificate, Fault>
    ensures text { Decodes (certificate_kind replicas) bytes.now result }
    ensures read { ReadsAll (certificate_at replicas) bytes.now result }
{
    read_whole(alloc, unfinished_certificate(alloc, replicas), bytes)
}

/// The length of the rows, without their number.
fn rows_length(rows: &[Row]) -> u128
    ensures length { result ≡ length (flat_map row_text rows.now) }
    ensures most { result ≤ 128 * length rows.now }
    ensures held { AllByRecursion IsHeldRow rows.now }
{
    let mut total = 0;
    for row in rows {
        total += row_length(row) as u128;
    }
    total
}

/// The length of the text.
#[tactic(auto, unfolding(crate::specs::CertificateTexts::certificate_text))]
pub fn certificate_length(certificate: &Certificate) -> u128
    ensures length { result ≡ length (certificate_text certificate.now) }
    ensures few { result ≤ 2 ^ 101 }
    ensures held { AllByRecursion IsHeldRow certificate.now }
    ensures value { (replicas : ℕ) → AllByRecursion (RowFits replicas) certificate.now
        → IsCertificateOf replicas certificate.now }
{
    4 + rows_length(certificate.rows())
}

/// The rows, after their number.
#[tactic(auto, unfolding(crate::specs::CertificateTexts::certificate_text))]
pub fn put_certificate(out: &mut Vec<u8>, certificate: &Certificate) -> Result<(), AllocError>
    requires { length certificate.now < 2 ^ 32 }
    ensures { Adds out.old.items out.new.items (certificate_text certificate.now) result }
{
    let rows = certificate.rows();
    put_u32(out, rows.len() as u32)?;
    for row in rows {
        put_row(out, row)?;
    }
    Ok(())
}

/// The certificate's text. Above the limit it is refused (`TooLong`) before any memory is taken; then all memory that
/// the text needs is taken at once.
pub fn encode_certificate(alloc: Global, certificate: &Certificate) -> Result<Vec<u8>, Fault>
    ensures text { Encodes (certificate_text certificate.now) result }
{
    let mut out = room_for(alloc, certificate_length(certificate))?;
    put_certificate(&mut out, certificate)?;
    Ok(out)
}

/// The text of a certificate is read again where its rows lie in the ranges of the format: dots and runs with numbers
/// from 1 to `MAX_SEQ`, ranks 0 or 1, sums up to `MAX_COUNT`. The function only measures: its contract is this law.
pub fn certificates_have_texts(certificate: &Certificate)
    ensures value { (replicas : ℕ) → AllByRecursion (RowFits replicas) certificate.now
        → IsCertificateOf replicas certificate.now }
{
    certificate_length(certificate);
}
