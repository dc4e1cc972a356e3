ghost use Rattle.std.specs.Prelude.{◌≡◌, ◌<◌, IfSome, length, position, slice_get};
ghost use Rattle.std.specs.Option.{option_copied};
ghost use Rattle.std.specs.Str.{bytes_eq};
ghost use Rattle.std.specs.Str.Lines.{lines};

/// The names of the keys, a line each: those of the printing ASCII characters in the order of the characters, from the blank on, and then
/// those of the other keys.
pub(crate) const NAMES: &str = "\
space
exclam
quotedbl
numbersign
dollar
percent
ampersand
apostrophe
parenleft
parenright
asterisk
plus
comma
minus
period
slash
0
1
2
3
4
5
6
7
8
9
colon
semicolon
less
equal
greater
question
at
A
B
C
D
E
F
G
H
I
J
K
L
M
N
O
P
Q
R
S
T
U
V
W
X
Y
Z
bracketleft
backslash
bracketright
asciicircum
underscore
grave
a
b
c
d
e
f
g
h
i
j
k
l
m
n
o
p
q
r
s
t
u
v
w
x
y
z
braceleft
bar
braceright
asciitilde
Return
Tab
BackSpace
Escape
Delete
Left
Right
Up
Down
Home
End
Prior
Next
Insert
F1
F2
F3
F4
F5
F6
F7
F8
F9
F10
F11
F12
Shift_L
Shift_R
Control_L
Control_R
Alt_L
Alt_R
Caps_Lock";

/// Where a line stands among the lines of a text, the first of equal ones.
pub(crate) fn place_of(text: &str, wanted: &str) -> Option<usize>
    ensures value { result ≡ position (λ line. bytes_eq line wanted.now) (lines text.now) }
    ensures bound { IfSome result (λ place. place < length (lines text.now)) }
{
    text.lines().position(|line| line == wanted)
}

/// The line at a place.
pub(crate) fn line_at(text: &'static str, place: usize) -> Option<&'static str>
    ensures { option_copied result ≡ slice_get (lines text.now) place }
{
    text.lines().nth(place)
}
