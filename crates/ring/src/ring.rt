// The ring itself.
ghost use Rattle.std.specs.Prelude.{◌≡◌, length};

use arithmetic::Settings;
use holders::{Holder, Post, Shelf};
use messages::Message;
use tables::{Questions, Table};

// One office's ring: its settings, its peers, its open questions, the numbers to give next, and the shelf and the post that the
// host lends it. It carries the laws of these two that its calls rest on, so that clauses about a ring need not name them.
#[derive(Drop)]
pub struct Ring<'a, S: Shelf, P: Post<Message>> {
    pub(crate) settings: Settings,
    pub(crate) table: Table,
    pub(crate) questions: Questions,
    pub(crate) stamp: u32,
    pub(crate) number: u32,
    pub(crate) shelf: &'a mut S,
    pub(crate) post: &'a mut P,
    ghost shelf_counted: { (s : S) → S.Holder.held s ≡ length (S.Shelf.meaning s) },
    ghost shelf_sized: { (s t : S) → S.Holder.frame s ≡ S.Holder.frame t → S.Holder.room s ≡ S.Holder.room t },
    ghost post_counted: { (p : P) → P.Holder.held p ≡ length (P.Post.waiting p) },
    ghost post_sized: { (p q : P) → P.Holder.frame p ≡ P.Holder.frame q → P.Holder.room p ≡ P.Holder.room q },
}
