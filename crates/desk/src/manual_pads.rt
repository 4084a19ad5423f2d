// What `hub help` says about the pad at hand.

pub const PAD: &[u8] = b"hub pad [from=FILE]
  Prints the pads that are plugged in, as Linux lists them in /proc/bus/input/devices: number,
  name, GUID, the codes of buttons and axes in the order by which lines count them, as 'hub help
  save' wants them, the codes of hats, and the device that 'hub test' reads. from=FILE reads a copy
  of that file, as a hall mails it.
  pad:1 stands for the UUID and the lists of pad 1 in save, show and test, and for the lists in
  default:
    hub save hall.store pad:1 'Seat 4' a=10131 b=10130
  pad:1:FILE is pad 1 of a copy. 'hub insert hall.store FILE only=pads' files the lines of the
  pads that are plugged in alone; only=pads:FILE those of a copy.
";
