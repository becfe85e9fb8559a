//! Laws that say which operations and which rules the words of other laws name.
ghost use Rattle.std.specs.Prelude.{◌≡◌, List, [], ◌∷◌, Some, None, codes, filter, map};
ghost use Rattle.std.specs.List.{Contains, join_with_byte};
ghost use Rattle.stamp_values.specs.Ascii.{space};
ghost use Rattle.stamp_values.specs.Operations.{lists_names, names_blob, names_container, writes};
ghost use Rattle.stamp_values.specs.declared.block.BlockKinds.TheVariants as kinds;
ghost use Rattle.stamp_values.specs.declared.op.Op.{Op};
ghost use Rattle.stamp_values.specs.declared.op.Op.TheVariants.{ListContainers, CreateContainer, ContainerProperties, SetContainerMetadata, GetAcl, SetAcl, DeleteContainer, ListBlobs, PutBlob, GetBlob, BlobProperties, GetMetadata, SetMetadata, DeleteBlob, PutBlock, PutBlockList, GetBlockList};
ghost use Rattle.stamp_types.specs.Rules.{rule_label};
ghost use Rattle.stamp_types.specs.declared.rule.Rule.TheVariants.{K1, K2, K3, K4, K5, S1, S2, S3, S4, S5, P1, O1, O2, O3, O4, O5, O6};
ghost use Rattle.range_rows.specs.ObjectRules.{needs_blob, needs_container};
ghost use Rattle.stamp_model.specs.Blocks.{reads_committed, takes_blocks};
ghost use Rattle.stamp_model.specs.Effects.{alters_access, alters_container};
ghost use Rattle.stamp_model.specs.Histories.{makes_or_deletes};
ghost use Rattle.stamp_model.specs.Kept.{alters_blob, gives_content, writes_blob};
ghost use Rattle.stamp_model.specs.Listed.{leaves_blob};
ghost use Rattle.stamp_model.specs.Refusals.{is_object_rule, rules_in_order, sees_no_container};
ghost use Rattle.stamp_model.specs.Withdrawals.{is_before_fields};
ghost use Rattle.stamp_model.specs.Words.{operations};

/// Each word of the laws names its operations, and no other operation. For example, `takes_blocks` is true of Put Blob, Delete Blob and
/// Put Block List, and false of each other operation. The list `operations` has every operation.
pub fn each_word_of_the_laws_names_its_operations()
    ensures all { (o : Op) → Contains operations o }
    ensures names_container { filter names_container operations
        ≡ CreateContainer ∷ ContainerProperties ∷ SetContainerMetadata ∷ GetAcl ∷ SetAcl
        ∷ DeleteContainer ∷ ListBlobs ∷ PutBlob ∷ GetBlob ∷ BlobProperties ∷ GetMetadata
        ∷ SetMetadata ∷ DeleteBlob ∷ PutBlock ∷ PutBlockList ∷ GetBlockList ∷ [] }
    ensures needs_container { filter needs_container operations
        ≡ ContainerProperties ∷ SetContainerMetadata ∷ GetAcl ∷ SetAcl
        ∷ DeleteContainer ∷ ListBlobs ∷ PutBlob ∷ GetBlob ∷ BlobProperties ∷ GetMetadata
        ∷ SetMetadata ∷ DeleteBlob ∷ PutBlock ∷ PutBlockList ∷ GetBlockList ∷ [] }
    ensures needs_blob { filter needs_blob operations
        ≡ GetBlob ∷ BlobProperties ∷ GetMetadata ∷ SetMetadata ∷ DeleteBlob ∷ [] }
    ensures writes { filter writes operations
        ≡ CreateContainer ∷ SetContainerMetadata ∷ SetAcl ∷ DeleteContainer ∷ PutBlob
        ∷ SetMetadata ∷ DeleteBlob ∷ PutBlock ∷ PutBlockList ∷ [] }
    ensures writes_blob { filter writes_blob operations
        ≡ PutBlob ∷ SetMetadata ∷ DeleteBlob ∷ PutBlock ∷ PutBlockList ∷ [] }
    ensures makes_or_deletes { filter makes_or_deletes operations
        ≡ CreateContainer ∷ DeleteContainer ∷ [] }
    ensures alters_container { filter alters_container operations
        ≡ CreateContainer ∷ SetContainerMetadata ∷ SetAcl ∷ DeleteContainer ∷ [] }
    ensures alters_access { filter alters_access operations
        ≡ CreateContainer ∷ SetAcl ∷ DeleteContainer ∷ [] }
    ensures takes_blocks { filter takes_blocks operations
        ≡ PutBlob ∷ DeleteBlob ∷ PutBlockList ∷ [] }
    ensures alters_blob { filter alters_blob operations
        ≡ PutBlob ∷ SetMetadata ∷ DeleteBlob ∷ PutBlockList ∷ [] }
    ensures gives_content { filter gives_content operations ≡ PutBlob ∷ PutBlockList ∷ [] }
    ensures leaves_blob { filter leaves_blob operations
        ≡ PutBlob ∷ SetMetadata ∷ PutBlockList ∷ [] }
    ensures lists_names { filter lists_names operations ≡ ListContainers ∷ ListBlobs ∷ [] }
    ensures reads_committed { filter (λ o. reads_committed o None) operations
        ≡ GetBlob ∷ BlobProperties ∷ GetMetadata ∷ GetBlockList ∷ [] }
    ensures reads_uncommitted { filter (λ o. reads_committed o (Some kinds.Uncommitted)) operations
        ≡ GetBlob ∷ BlobProperties ∷ GetMetadata ∷ [] }
{}

/// The rules of permission and of the object are judged in the order of their labels, which is the order of the enum `Rule`: K1 to K5,
/// then S1 to S11, then P1 and P2, then O1 to O6. Each word of the laws names its rules, and no other of these rules: for example,
/// `is_before_fields` is true of S2 to S5.
pub fn all_rules_have_the_order_of_their_labels()
    ensures order { join_with_byte space (map rule_label rules_in_order)
        ≡ codes "K1 K2 K3 K4 K5 S1 S2 S3 S4 S5 S6 S7 S8 S9 S10 S11 P1 P2 O1 O2 O3 O4 O5 O6" }
    ensures is_before_fields { filter is_before_fields rules_in_order ≡ S2 ∷ S3 ∷ S4 ∷ S5 ∷ [] }
    ensures sees_no_container { filter sees_no_container rules_in_order
        ≡ K1 ∷ K2 ∷ K3 ∷ K4 ∷ K5 ∷ S1 ∷ S2 ∷ S3 ∷ S4 ∷ P1 ∷ [] }
    ensures is_object_rule { filter is_object_rule rules_in_order
        ≡ O1 ∷ O2 ∷ O3 ∷ O4 ∷ O5 ∷ O6 ∷ [] }
{}
