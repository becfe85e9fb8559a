//! The entries of lists.
ghost use Rattle.std.specs.Prelude.{◌≡◌, IfOk, Some, None};
ghost use Rattle.std.specs.Option.{option_map};
ghost use Rattle.body_forms.specs.ListEntries as lists;

use stamp_types::{Committed, Metadata, Moment, Pieces, Props, Standing};
use stamp_values::Visible;
use std::alloc::{AllocError, Global};
use std::marker::Model;

/// What a list shows of a blob, as the blob lends it. The length is that of the content.
#[derive(Drop)]
pub struct LentBlob<'a> {
    committed: &'a Committed<Pieces>,
    len: u64,
}

impl<'a> Model for LentBlob<'a> {
    ghost use Rattle.body_forms.specs.ListEntries.{ShownBlob};

    ghost Value = { ShownBlob };

    ghost view = { λ b. record {
      etag = b.committed.now.etag;
      made = b.committed.now.made;
      content_type = b.committed.now.props.content_type;
      metadata = b.committed.now.metadata;
      len = b.len;
    } };
}

impl<'a> LentBlob<'a> {
    /// What a list shows of a committed blob whose content has so many bytes.
    pub fn new(committed: &'a Committed<Pieces>, len: u64) -> Self
        ensures { result ≡ lists.shown_committed committed.now len }
    {
        Self { committed, len }
    }
}

/// What a list shows of a blob. It shares the texts with the blob, so a list can be written after the blob has changed.
#[derive(Drop)]
pub struct ListedBlob {
    etag: u64,
    made: Moment,
    props: Props,
    metadata: Metadata,
    len: u64,
}

impl Model for ListedBlob {
    ghost use Rattle.body_forms.specs.ListEntries.{ShownBlob};

    ghost Value = { ShownBlob };

    ghost view = { λ b. record {
      etag = b.etag;
      made = b.made;
      content_type = b.props.content_type;
      metadata = b.metadata;
      len = b.len;
    } };
}

impl ListedBlob {
    // The same, with one more owner of the texts. No byte of them is copied.
    fn of(blob: LentBlob<'_>) -> Result<Self, AllocError>
        ensures { IfOk result (λ listed. listed ≡ blob.entry) }
    {
        let LentBlob { committed, len } = blob;
        Ok(Self {
            etag: committed.etag,
            made: committed.made,
            props: committed.props.clone()?,
            metadata: committed.metadata.clone()?,
            len,
        })
    }

    /// The count of changes that the ETag says.
    pub fn etag(&self) -> u64
        ensures { result ≡ self.now.etag }
    {
        self.etag
    }

    /// The moment of the last change (Last-Modified).
    pub fn made(&self) -> Moment
        ensures { result ≡ self.now.made }
    {
        self.made
    }

    /// The blob's Content-Type.
    pub fn content_type(&self) -> &Visible
        ensures { result.now ≡ self.now.content_type }
    {
        self.props.content_type()
    }

    /// The blob's metadata. A list shows them only if the request asks for them.
    pub fn metadata(&self) -> &Metadata
        ensures { result.now ≡ self.now.metadata }
    {
        &self.metadata
    }

    /// How many bytes the content has.
    pub fn len(&self) -> u64
        ensures { result ≡ self.now.len }
    {
        self.len
    }
}

/// An entry of a list of blobs: a name with what is shown of its blob, or a group of names. It lends nothing, so a list can be written after its
/// names have gone.
#[derive(Drop)]
pub struct BlobEntry {
    text: Vec<u8>,
    blob: Option<ListedBlob>,
}

impl Model for BlobEntry {
    ghost use Rattle.body_forms.specs.ListEntries.{Entry, ShownBlob};

    ghost Value = { Entry ShownBlob };

    ghost view = { λ e. (e.text.items, e.blob) };
}

impl BlobEntry {
    /// The entry of a blob of this name, and of what is shown of it. The name is copied, the other texts are shared.
    ///
    /// `AllocError` if memory runs out for the name, or if a text can have no further owner.
    pub fn blob(alloc: Global, name: &[u8], blob: LentBlob<'_>) -> Result<Self, AllocError>
        ensures { IfOk result (λ e. e ≡ (name.now, Some blob.entry)) }
    {
        Ok(Self {
            text: name.to_vec(alloc)?,
            blob: Some(ListedBlob::of(blob)?),
        })
    }

    /// The entry of a group: of all names that begin with this text. The text is copied.
    ///
    /// `AllocError` if memory runs out.
    pub fn group(alloc: Global, text: &[u8]) -> Result<Self, AllocError>
        ensures { IfOk result (λ e. e ≡ (text.now, None)) }
    {
        Ok(Self {
            text: text.to_vec(alloc)?,
            blob: None,
        })
    }

    /// The name, or the text that all names of the group begin with.
    pub fn text(&self) -> &[u8]
        ensures { result.now ≡ self.now.0 }
    {
        &self.text
    }

    /// What is shown of the blob, or `None` if the entry is a group.
    pub fn listed(&self) -> Option<&ListedBlob>
        ensures { option_map (λ b. b.now) result ≡ self.now.1 }
    {
        self.blob.as_ref()
    }
}

/// What a list shows of a container. It shares the metadata with the container.
#[derive(Drop)]
pub struct ListedContainer {
    etag: u64,
    made: Moment,
    metadata: Metadata,
}

impl Model for ListedContainer {
    ghost use Rattle.body_forms.specs.ListEntries.{ShownContainer};

    ghost Value = { ShownContainer };

    ghost view = { λ c. record { etag = c.etag; made = c.made; metadata = c.metadata } };
}

impl ListedContainer {
    // What a list shows of a container that exists. No byte of its metadata is copied.
    fn of(standing: &Standing) -> Result<Self, AllocError>
        ensures { IfOk result (λ c. c ≡ lists.shown_standing standing.now) }
    {
        Ok(Self {
            etag: standing.etag,
            made: standing.made,
            metadata: standing.metadata.clone()?,
        })
    }

    /// The count of changes that the ETag says.
    pub fn etag(&self) -> u64
        ensures { result ≡ self.now.etag }
    {
        self.etag
    }

    /// The moment of the change that the ETag counts (Last-Modified).
    pub fn made(&self) -> Moment
        ensures { result ≡ self.now.made }
    {
        self.made
    }

    /// The container's metadata. A list shows them only if the request asks for them.
    pub fn metadata(&self) -> &Metadata
        ensures { result.now ≡ self.now.metadata }
    {
        &self.metadata
    }
}

/// An entry of a list of containers. It lends nothing, so a list can be written after the container has gone.
#[derive(Drop)]
pub struct ContainerEntry {
    name: Vec<u8>,
    container: ListedContainer,
}

impl Model for ContainerEntry {
    ghost use Rattle.std.specs.Prelude.{Some};
    ghost use Rattle.body_forms.specs.ListEntries.{Entry, ShownContainer};

    ghost Value = { Entry ShownContainer };

    ghost view = { λ e. (e.name.items, Some e.container) };
}

impl ContainerEntry {
    /// The entry of a container of this name, and of what it has beside its blobs. The name is copied, the metadata are shared.
    ///
    /// `AllocError` if memory runs out for the name, or if the metadata can have no further owner.
    pub fn of(alloc: Global, name: &[u8], standing: &Standing) -> Result<Self, AllocError>
        ensures { IfOk result (λ e. e ≡ (name.now, Some (lists.shown_standing standing.now))) }
    {
        Ok(Self {
            name: name.to_vec(alloc)?,
            container: ListedContainer::of(standing)?,
        })
    }

    /// The container's name.
    pub fn name(&self) -> &[u8]
        ensures { result.now ≡ self.now.0 }
    {
        &self.name
    }

    /// What is shown of the container.
    pub fn container(&self) -> &ListedContainer
        ensures { Some result.now ≡ self.now.1 }
    {
        &self.container
    }
}
