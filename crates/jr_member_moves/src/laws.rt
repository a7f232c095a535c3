//! What holds of keys, and of what each move makes of a program.
ghost use Rattle.jr_member_moves.specs.Laws.{
  OthersStay,
  PullsUpMove,
  PullUpIsApart,
  MovesStaticMove,
  MoveStaticIsApart,
  MoveInstanceIsApart,
};

/// A member that doesn't move keeps its key (JLS 8.2).
pub fn other_members_stay()
    ensures { OthersStay }
{}

/// Pull up moves one member to the superclass: its key is that in this class, which no other member
/// of the program has, and all other keys and all names stay (JLS 8.2, 8.3, 8.4.2).
pub fn pulls_up_move()
    ensures { PullsUpMove }
{}

/// The spots of a pull up are used: the list from the member on, and the class to which it comes,
/// are never rewritten node by node.
pub fn pull_up_is_apart()
    ensures { PullUpIsApart }
{}

/// Move static moves one method to the class, in the same way.
pub fn moves_static_move()
    ensures { MovesStaticMove }
{}

/// The spots of a move static are used: those of a pull up, and each call of the method through a
/// class, in whose arguments others may stand.
pub fn move_static_is_apart()
    ensures { MoveStaticIsApart }
{}

/// The spots of a move instance are used: the list from the method on, and the class to which its body
/// comes.
pub fn move_instance_is_apart()
    ensures { MoveInstanceIsApart }
{}
