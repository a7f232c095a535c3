//! The code of what a refactoring rewrites is the image of the old code (`jr_runs: Images`), for any
//! images, any region and any spots. Nothing in it runs.
//!
//! What holds of any region is said by lemmas, as no clause can quantify over regions: of
//! expressions `proofs/ExpImages: images`, of statements `StmtImages: stmts_images`, of members
//! `MemberImages: method_image`, `ConstructorImages: constructor_image`, `InitImages: inits_walk`.
//! Given are the old tree where it stands, what a refactoring makes of it, and the code of both.
//! They say it for any relation of old code and new that holds of a node where it holds of its parts
//! (`specs/CodeRelations`); an image with its sets of agreeing locals, in a standing, is one
//! (`SetImages`, `proofs/Through`), and one between all sets that the old code goes between is another
//! (`FlowImages`, `proofs/Flowing`). `ReceiverImages`: where a local stands for `this`. `laws` says it
//! of a rename's expressions.
//!
//! `specs/KeysIn`: what a map of keys owes to the images, and the images to the two programs;
//! `CodedSpots`: what is asked of what is rewritten node by node, and what a spot owes;
//! `KnownPlaces`: places at which each type is of a class that is declared.
#![tactic(auto)]

mod laws;

pub use laws::renamed_expressions_are_images;
