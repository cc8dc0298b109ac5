//! Feeds of the kinds of texts.
ghost use Rattle.std.specs.Prelude.{◌≡◌, ℕ, List, [], Result};
ghost use Rattle.rds_codec.specs.AnswerTexts.{answer_at};
ghost use Rattle.rds_codec.specs.CertificateTexts.{certificate_kind, certificate_at};
ghost use Rattle.rds_codec.specs.DigestTexts.{digest_kind, digest_at};
ghost use Rattle.rds_codec.specs.FormatTexts.{answer_at_in, answer_kind_in, snapshot_in_at, snapshot_kind_in, state_at_in, state_kind_in};
ghost use Rattle.rds_codec.specs.HelloTexts.{hello_kind, hello_at};
ghost use Rattle.rds_codec.specs.StateTexts.{state_at};
ghost use Rattle.rds_codec.specs.declared.formats.Format.{Format};
ghost use Rattle.rds_codec.proofs.BothSnapshots.{snapshot_in_reader};
ghost use Rattle.rds_codec.proofs.CertificateFormats.{certificate_reader};
ghost use Rattle.rds_codec.proofs.DigestFormats.{digest_reader};
ghost use Rattle.rds_codec.proofs.HelloFormats.{hello_reader};
ghost use Rattle.rds_codec.proofs.InFormats.{answer_in_reader, state_in_reader};
ghost use Rattle.rds_keep.specs.Feeding.{StandsFor};
ghost use Rattle.rds_keep.specs.FedTexts.{decodes_texts};

use crate::fed::Fed;
use crate::feeds::Feed;
use rds_codec::{
    Format, UnfinishedAnswer, UnfinishedCertificate, UnfinishedDigest, UnfinishedHello,
    UnfinishedSnapshot, UnfinishedState, unfinished_answer, unfinished_certificate,
    unfinished_digest, unfinished_hello, unfinished_snapshot, unfinished_state,
};
use rds_dots::DotSet;
use rds_feeds::Unfinished;
use std::alloc::Global;

impl<S: DotSet> Fed for UnfinishedState<S> {
    ghost kind = { state_kind_in };

    ghost reader = { state_at_in };

    fn begin(alloc: Global, format: Format, replicas: u16) -> UnfinishedState<S> {
        unfinished_state(alloc, format, replicas)
    }

    ghost decodes = { λ f n. decodes_texts (state_kind_in f n) (state_at_in f n) (state_in_reader f n) };
}

impl<S: DotSet> Fed for UnfinishedDigest<S> {
    ghost kind = { λ _. digest_kind };

    ghost reader = { λ _. digest_at };

    fn begin(alloc: Global, _format: Format, replicas: u16) -> UnfinishedDigest<S> {
        unfinished_digest(alloc, replicas)
    }

    ghost decodes = { λ _ n. decodes_texts (digest_kind n) (digest_at n) (digest_reader n) };
}

impl Fed for UnfinishedCertificate {
    ghost kind = { λ _. certificate_kind };

    ghost reader = { λ _. certificate_at };

    fn begin(alloc: Global, _format: Format, replicas: u16) -> UnfinishedCertificate {
        unfinished_certificate(alloc, replicas)
    }

    ghost decodes = { λ _ n. decodes_texts (certificate_kind n) (certificate_at n) (certificate_reader n) };
}

impl<S: DotSet> Fed for UnfinishedAnswer<S> {
    ghost kind = { answer_kind_in };

    ghost reader = { answer_at_in };

    fn begin(alloc: Global, format: Format, replicas: u16) -> UnfinishedAnswer<S> {
        unfinished_answer(alloc, format, replicas)
    }

    ghost decodes = { λ f n. decodes_texts (answer_kind_in f n) (answer_at_in f n) (answer_in_reader f n) };
}

impl Fed for UnfinishedHello {
    ghost kind = { λ _ _. hello_kind };

    ghost reader = { λ _ _. hello_at };

    fn begin(_alloc: Global, _format: Format, _replicas: u16) -> UnfinishedHello {
        unfinished_hello()
    }

    ghost decodes = { λ _ _. decodes_texts hello_kind hello_at hello_reader };
}

impl<S: DotSet> Fed for UnfinishedSnapshot<S> {
    ghost kind = { λ _ _. snapshot_kind_in };

    ghost reader = { λ _ _. snapshot_in_at };

    fn begin(_alloc: Global, _format: Format, _replicas: u16) -> UnfinishedSnapshot<S> {
        unfinished_snapshot()
    }

    ghost decodes = { λ _ _. decodes_texts snapshot_kind_in snapshot_in_at snapshot_in_reader };
}

impl<S: DotSet> Feed<UnfinishedState<S>> {
    /// A feed of a state of so many replicas in a format, that was given no bytes yet. Takes no memory.
    pub fn state_in(alloc: Global, format: Format, replicas: u16) -> Feed<UnfinishedState<S>>
        ensures { StandsFor ⟦<UnfinishedState<S> as Unfinished>⟧.finish (state_at_in format replicas) result [] }
    {
        Feed::of(alloc, unfinished_state(alloc, format, replicas))
    }

    /// The same of format 2.
    pub fn state(alloc: Global, replicas: u16) -> Feed<UnfinishedState<S>>
        ensures { StandsFor ⟦<UnfinishedState<S> as Unfinished>⟧.finish (state_at replicas) result [] }
    {
        Feed::state_in(alloc, Format::Two, replicas)
    }
}

impl<S: DotSet> Feed<UnfinishedDigest<S>> {
    /// A feed of a digest of so many replicas, that was given no bytes yet. Takes no memory.
    pub fn digest(alloc: Global, replicas: u16) -> Feed<UnfinishedDigest<S>>
        ensures { StandsFor ⟦<UnfinishedDigest<S> as Unfinished>⟧.finish (digest_at replicas) result [] }
    {
        Feed::of(alloc, unfinished_digest(alloc, replicas))
    }
}

impl Feed<UnfinishedCertificate> {
    /// A feed of a certificate of so many replicas, that was given no bytes yet. Takes no memory.
    pub fn certificate(alloc: Global, replicas: u16) -> Feed<UnfinishedCertificate>
        ensures { StandsFor ⟦<UnfinishedCertificate as Unfinished>⟧.finish (certificate_at replicas) result [] }
    {
        Feed::of(alloc, unfinished_certificate(alloc, replicas))
    }
}

impl<S: DotSet> Feed<UnfinishedAnswer<S>> {
    /// A feed of an answer of so many replicas in a format, that was given no bytes yet. Takes no memory.
    pub fn answer_in(alloc: Global, format: Format, replicas: u16) -> Feed<UnfinishedAnswer<S>>
        ensures { StandsFor ⟦<UnfinishedAnswer<S> as Unfinished>⟧.finish (answer_at_in format replicas) result [] }
    {
        Feed::of(alloc, unfinished_answer(alloc, format, replicas))
    }

    /// The same of format 2.
    pub fn answer(alloc: Global, replicas: u16) -> Feed<UnfinishedAnswer<S>>
        ensures { StandsFor ⟦<UnfinishedAnswer<S> as Unfinished>⟧.finish (answer_at replicas) result [] }
    {
        Feed::answer_in(alloc, Format::Two, replicas)
    }
}

impl Feed<UnfinishedHello> {
    /// A feed of a hello, that was given no bytes yet. Takes no memory.
    pub fn hello(alloc: Global) -> Feed<UnfinishedHello>
        ensures { StandsFor ⟦<UnfinishedHello as Unfinished>⟧.finish hello_at result [] }
    {
        Feed::of(alloc, unfinished_hello())
    }
}

impl<S: DotSet> Feed<UnfinishedSnapshot<S>> {
    /// A feed of a snapshot in either format, that was given no bytes yet. It ends as the replica and its format. Takes
    /// no memory.
    pub fn snapshot(alloc: Global) -> Feed<UnfinishedSnapshot<S>>
        ensures { StandsFor ⟦<UnfinishedSnapshot<S> as Unfinished>⟧.finish snapshot_in_at result [] }
    {
        Feed::of(alloc, unfinished_snapshot())
    }
}
