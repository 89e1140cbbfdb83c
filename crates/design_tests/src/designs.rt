//! The designs of examples/designs.

pub const SMALLEST: &str = "tick = \"10 us\"
unit = \"1 byte\"
link = [{ from = \"camera\", to = \"desk\", rate = \"100 Mbit/s\", levels = [\"0.5 ms\", \"5 ms\"] }]
[[stream]]
name = \"video\"
from = \"camera\"
to = \"desk\"
every = \"1 ms\"
size = \"1000 B\"
within = \"2 ms\"
";

pub const AFDX: &str =
    "# Two AFDX switches. 100 Mbit/s; a switch and its cable take 20 us. Sizes are Lmax and 20 bytes for preamble and gap.
tick = \"10 us\"
unit = \"1 byte\"
run = \"60 ms\"
test = \"whole\"
link = [
  { name = \"fc1\", from = \"FC1\", to = \"S1\", levels = [\"0.3 ms\", \"3 ms\"] },
  { name = \"fc2\", from = \"FC2\", to = \"S1\", levels = [\"0.3 ms\", \"3 ms\"] },
  { name = \"trunk\", from = \"S1\", to = \"S2\", levels = [\"0.5 ms\", \"3 ms\"] },
  { name = \"act\", from = \"S2\", to = \"ACT\", levels = [\"0.2 ms\", \"2 ms\"] },
  { name = \"rec\", from = \"S2\", to = \"REC\", levels = [\"0.4 ms\", \"4 ms\"] },
]
stream = [
  { name = \"att1\", class = \"attitude\", route = \"fc1 trunk act\" },
  { name = \"air1\", class = \"airdata\", route = \"fc1 trunk act\" },
  { name = \"log1\", class = \"log\", route = \"fc1 trunk rec\" },
  { name = \"att2\", class = \"attitude\", route = \"fc2 trunk act\" },
  { name = \"air2\", class = \"airdata\", route = \"fc2 trunk act\" },
  { name = \"log2\", class = \"log\", route = \"fc2 trunk rec\" },
]

[defaults.link]
rate = \"100 Mbit/s\"
largest = \"1538 B\"
latency = \"20 us\"
buffer = \"65536 B\"

[defaults.stream]
late = \"0.4 ms\"

# a BAG of 2 ms: five frames in 10 ms
[class.attitude]
packets = 5
in = \"10 ms\"
apart = \"2 ms\"
size = \"100 B\"
within = \"2.01 ms\"
count = 10

[class.airdata]
packets = 10
in = \"80 ms\"
apart = \"8 ms\"
size = \"220 B\"
within = \"8.01 ms\"
count = 3

[class.log]
every = \"32 ms\"
size = \"1538 B\"
within = \"32.01 ms\"
count = 2
";

pub const LINE: &str =
    "# A line of twelve switches, w1 to w12, and a controller behind w12. 100 Mbit/s; a switch and its cable take 10 us.
tick = \"10 us\"
unit = \"1 byte\"
run = \"45 ms\"
test = \"whole\"
link = [
  { name = \"t{}\", from = \"w{}\", to = \"w{+1}\", copies = 11 },
  { name = \"ctl\", from = \"w12\", to = \"plc\" },
]
stream = [
  { name = \"d1\", class = \"drive\", route = \"t1 t2 t3 t4 t5 t6 t7 t8 t9 t10 t11 ctl\" },
  { name = \"d2\", class = \"drive\", route = \"t2 t3 t4 t5 t6 t7 t8 t9 t10 t11 ctl\" },
  { name = \"d3\", class = \"drive\", route = \"t3 t4 t5 t6 t7 t8 t9 t10 t11 ctl\" },
  { name = \"d4\", class = \"drive\", route = \"t4 t5 t6 t7 t8 t9 t10 t11 ctl\" },
  { name = \"d5\", class = \"drive\", route = \"t5 t6 t7 t8 t9 t10 t11 ctl\" },
  { name = \"d6\", class = \"drive\", route = \"t6 t7 t8 t9 t10 t11 ctl\" },
  { name = \"d7\", class = \"drive\", route = \"t7 t8 t9 t10 t11 ctl\" },
  { name = \"d8\", class = \"drive\", route = \"t8 t9 t10 t11 ctl\" },
  { name = \"d9\", class = \"drive\", route = \"t9 t10 t11 ctl\" },
  { name = \"d10\", class = \"drive\", route = \"t10 t11 ctl\" },
  { name = \"d11\", class = \"drive\", route = \"t11 ctl\" },
  { name = \"d12\", class = \"drive\", route = \"ctl\" },
  { name = \"cam\", class = \"camera\", route = \"t3 t4 t5 t6 t7 t8 t9 t10 t11 ctl\" },
]

[defaults.link]
rate = \"100 Mbit/s\"
latency = \"10 us\"
buffer = \"65536 B\"
levels = [\"0.6 ms\", \"6 ms\"]

# a drive tells its state each ms, and the camera sends a picture of 30 frames each 40 ms
[class.drive]
every = \"1 ms\"
size = \"84 B\"
within = \"8.01 ms\"
count = 10

[class.camera]
packets = 30
in = \"40 ms\"
apart = \"0.2 ms\"
size = \"1538 B\"
within = \"40.01 ms\"
count = 30
";

pub const TRUNK: &str =
    "# A trunk of 2,048 kbit/s between two exchanges: calls of 200 bytes each 20 ms and 18 of header, which come and go, and bulk data of 1,518.
tick = \"100 us\"
unit = \"1 byte\"
run = \"1.1 s\"
test = \"whole\"
stream = [
  { name = \"c1go\", class = \"call\", route = \"go\", end = \"610 ms\" },
  { name = \"c1back\", class = \"call\", route = \"back\", end = \"610 ms\" },
  { name = \"c2go\", class = \"call\", route = \"go\", end = \"620 ms\" },
  { name = \"c2back\", class = \"call\", route = \"back\", end = \"620 ms\" },
  { name = \"mail\", class = \"mail\", route = \"go\" },
  { name = \"c3go\", class = \"call\", route = \"go\", start = \"30 ms\", end = \"630 ms\" },
  { name = \"c3back\", class = \"call\", route = \"back\", start = \"30 ms\", end = \"630 ms\" },
  { name = \"c4go\", class = \"call\", route = \"go\", start = \"70 ms\", end = \"640 ms\" },
  { name = \"c4back\", class = \"call\", route = \"back\", start = \"70 ms\", end = \"640 ms\" },
  { name = \"c5go\", class = \"call\", route = \"go\", start = \"70 ms\", end = \"650 ms\" },
  { name = \"c5back\", class = \"call\", route = \"back\", start = \"70 ms\", end = \"650 ms\" },
  { name = \"c6go\", class = \"call\", route = \"go\", start = \"110 ms\" },
  { name = \"c6back\", class = \"call\", route = \"back\", start = \"110 ms\" },
  { name = \"c7go\", class = \"call\", route = \"go\", start = \"150 ms\" },
  { name = \"c7back\", class = \"call\", route = \"back\", start = \"150 ms\" },
  { name = \"c8go\", class = \"call\", route = \"go\", start = \"150 ms\" },
  { name = \"c8back\", class = \"call\", route = \"back\", start = \"150 ms\" },
  { name = \"c9go\", class = \"call\", route = \"go\", start = \"190 ms\" },
  { name = \"c9back\", class = \"call\", route = \"back\", start = \"190 ms\" },
  { name = \"c10go\", class = \"call\", route = \"go\", start = \"230 ms\" },
  { name = \"c10back\", class = \"call\", route = \"back\", start = \"230 ms\" },
  { name = \"late\", class = \"call\", route = \"go\", start = \"700 ms\", count = 10 },
]

[[link]]
name = \"go\"
back = \"back\"
both = true
from = \"east\"
to = \"west\"
rate = \"2.048 Mbit/s\"
largest = \"1518 B\"
latency = \"0.5 ms\"
buffer = \"65536 B\"
levels = [\"15 ms\", \"100 ms\"]

[class.call]
every = \"20 ms\"
size = \"218 B\"
within = \"15.6 ms\"
count = 30

[class.mail]
packets = 10
in = \"400 ms\"
apart = \"6.1 ms\"
size = \"1518 B\"
within = \"200.1 ms\"
count = 12
";

pub const OFFICE: &str =
    "# Twenty end systems at a switch, each with a camera's alarm and a sensor, and a server behind the switch.
tick = \"10 us\"
unit = \"1 byte\"
run = \"50 ms\"

[[link]]
from = \"es{}\"
to = \"sw\"
copies = 20
rate = \"100 Mbit/s\"

[[link]]
from = \"sw\"
to = \"server\"
rate = \"1 Gbit/s\"

[[stream]]
name = \"sensor\"
from = \"es{}\"
to = \"server\"
copies = 20
every = \"2 ms\"
size = \"64 B\"
overhead = [\"ethernet\", \"udp\"]
within = \"2.5 ms\"
count = 10

[[stream]]
name = \"alarm\"
from = \"es{}\"
to = \"server\"
copies = 20
packets = 3
in = \"30 ms\"
apart = \"0.2 ms\"
late = \"50 us\"
size = \"1000 B\"
overhead = \"ethernet, udp\"
within = \"20 ms\"
jitter = \"10 ms\"
count = 3

[defaults.link]
latency = \"10 us\"
levels = [\"0.5 ms\", \"5 ms\"]
";

pub const SHARED: &str =
    "# A line of 80 Mbit/s from an office to an exchange, split between telephones and a camera, with downloads in what they leave.
tick = \"10 us\"
unit = \"1 byte\"
run = \"220 ms\"

[[link]]
name = \"line\"
from = \"office\"
to = \"exchange\"
rate = \"80 Mbit/s\"
latency = \"50 us\"
levels = [\"1 ms\", \"5 ms\"]
best = 64

# of each level's bound, and of the buffer
[[quota]]
link = \"line\"
group = \"voice\"
levels = [\"0.2 ms\", \"1 ms\"]
buffer = \"16 KiB\"

[[quota]]
link = \"line\"
group = \"video\"
levels = [\"0.4 ms\", \"3 ms\"]
buffer = \"32 KiB\"

[[stream]]
name = \"phone\"
copies = 4
group = \"voice\"
route = \"line\"
every = \"20 ms\"
size = \"218 B\"
within = \"5 ms\"
count = 10

[[stream]]
name = \"camera\"
group = \"video\"
route = \"line\"
packets = 30
in = \"40 ms\"
apart = \"0.2 ms\"
size = \"1500 B\"
overhead = \"ethernet\"
within = \"40 ms\"
count = 30

[[stream]]
name = \"downloads\"
best_effort = true
link = \"line\"
every = \"1 ms\"
size = \"1538 B\"
count = 200
";
